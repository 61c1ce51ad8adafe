//! Whose act it is, where a Write acts after its call has ended.
ghost use Rattle.tier_protocol.specs.Owners.{ActsAreOwned, HistoriesAreNumbered, LandingFits, LossesAreQuiet, NumbersArePlaces, NumbersStay, QuietKeeps};

/// A Write that acts on the base gives its act to the call that owns it, which had none and was not
/// answered for good.
pub fn acts_are_owned()
    ensures { ActsAreOwned }
{}

/// Where the owner of a proxied write has an act when it lands, the base answers with the reply of
/// this act; and it has one where the base told that the request acted just now.
pub fn landing_fits()
    ensures { LandingFits }
{}

/// The number of a call's act is its place in the history, counted from 1: it is told as soon as
/// the act comes, each act has one, no two calls have the same, and the act at that place is the
/// call's.
pub fn numbers_are_places()
    ensures { NumbersArePlaces }
{}

/// So it is in every moment.
pub fn histories_are_numbered()
    ensures { HistoriesAreNumbered }
{}

/// The number of a call's act stays, however many acts of other names come between its delivery and
/// its receipt.
pub fn numbers_stay()
    ensures { NumbersStay }
{}

/// A move that leaves the base and the history keeps whose act each Write will be.
pub fn quiet_keeps()
    ensures { QuietKeeps }
{}

/// Losses, calls that end and stops of either pool are such moves.
pub fn losses_are_quiet()
    ensures { LossesAreQuiet }
{}
