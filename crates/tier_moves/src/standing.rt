//! What the work on a name means for a client's call.
ghost use Rattle.std.specs.Option.{option_copied};
ghost use Rattle.std.specs.Prelude.{◌≡◌};
ghost use Rattle.tier_moves.specs.Stands.{stand_of};

use tier_flight::Flight;

/// What the work on a name means for a client's call.
#[derive(Clone, Copy, Debug, PartialEq, Eq)]
pub(crate) enum Stand {
    /// The call goes on to the record of the name.
    Clear,
    /// The call is turned away: by a promotion, a write request that a call drives, or a flush that
    /// keeps writers out.
    HeldUp,
    /// A write request was left, and the call is to take it over.
    Left,
    /// The call writes while reads are with the base: its way is to be chosen first.
    Behind,
}

/// What the work on a name, if there is any, means for a call that writes or reads.
pub(crate) fn stand_of(work: Option<&Flight>, writes: bool) -> Stand
    ensures { result ≡ stand_of (option_copied work.entry) writes }
{
    match work {
        None => Stand::Clear,
        Some(Flight::Promote { .. }) => Stand::HeldUp,
        Some(
            Flight::Write {
                driver: Some(_),
                ..
            },
        ) => Stand::HeldUp,
        Some(Flight::Write { driver: None, .. }) => Stand::Left,
        Some(Flight::Reads { .. }) if writes => Stand::Behind,
        Some(Flight::Flush { blocking: true, .. }) if writes => Stand::HeldUp,
        Some(_) => Stand::Clear,
    }
}
