//! Each move keeps whose act each Write will be; and where a call may be answered for good.
ghost use Rattle.tier_owners.specs.Calls.{ActingKeepsOwners, AdoptersMayClose, AnsweredHereMayClose, AskingKeepsOwners, BeginningKeepsOwners, BlockedMayClose, ClosingKeepsOwners, CountingKeepsOwners, DeliveringKeepsOwners, FoundIsOwned, LandedMayClose, OwningNothingMayClose, ReadersMayClose, SendingKeepsOwners, UnsentMayClose, WritingKeepsOwners};

/// Where nothing is under way nobody owns anything.
pub fn found_is_owned()
    ensures { FoundIsOwned }
{}

/// A new call may ask a write request.
pub fn asking_keeps_owners()
    ensures { AskingKeepsOwners }
{}

/// The write request of a call that asked it, has no act and was not answered for good may begin.
pub fn beginning_keeps_owners()
    ensures { BeginningKeepsOwners }
{}

/// A Write that is sent, at first, again, or driven by another call, is its owner's.
pub fn writing_keeps_owners()
    ensures { WritingKeepsOwners }
{}

/// Any other message may be sent.
pub fn sending_keeps_owners()
    ensures { SendingKeepsOwners }
{}

/// A request that acts on a record gives its act to the call that asked it.
pub fn acting_keeps_owners()
    ensures { ActingKeepsOwners }
{}

/// A message may reach the base of which no act comes: an installation, or a Write that does not
/// act.
pub fn delivering_keeps_owners()
    ensures { DeliveringKeepsOwners }
{}

/// An epoch that was found may count as the raise.
pub fn counting_keeps_owners()
    ensures { CountingKeepsOwners }
{}

/// An answer for good may be written down where no act of its call can come any more.
pub fn closing_keeps_owners()
    ensures { ClosingKeepsOwners }
{}

/// So it may be where a proxied write landed.
pub fn landed_may_close()
    ensures { LandedMayClose }
{}

/// Where the request's name has a record while the cache is up.
pub fn answered_here_may_close()
    ensures { AnsweredHereMayClose }
{}

/// Of a call that asked no write request.
pub fn readers_may_close()
    ensures { ReadersMayClose }
{}

/// And of one that asked and sent nothing.
pub fn unsent_may_close()
    ensures { UnsentMayClose }
{}

/// Of one that owns no write request under way and has no Write on the wire, whatever work of
/// others stands on its name.
pub fn owning_nothing_may_close()
    ensures { OwningNothingMayClose }
{}

/// So of one that was turned away by another call's write request.
pub fn blocked_may_close()
    ensures { BlockedMayClose }
{}

/// And of one that drove another call's write request until it landed.
pub fn adopters_may_close()
    ensures { AdoptersMayClose }
{}
