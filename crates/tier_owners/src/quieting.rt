//! Moves that leave all owners as they were: the base's states and the history stay, nothing is
//! sent, and no write request begins.
ghost use Rattle.tier_owners.specs.QuietMoves.{BeginningIsQuiet, CleaningIsQuiet, EvictingIsQuiet, FillingIsQuiet, GatheringIsQuiet, GoingUpIsQuiet, LandingIsQuiet, PromotingIsQuiet, RaisingIsQuiet, ReplyingIsQuiet};

/// A reply that does not say of a request that it acted just now.
pub fn replying_is_quiet()
    ensures { ReplyingIsQuiet }
{}

/// A commit that finds no space.
pub fn filling_is_quiet()
    ensures { FillingIsQuiet }
{}

/// A promotion that takes a chunk.
pub fn gathering_is_quiet()
    ensures { GatheringIsQuiet }
{}

/// A promotion that ends with a record.
pub fn promoting_is_quiet()
    ensures { PromotingIsQuiet }
{}

/// A flush that ends, with a clean record or with none.
pub fn cleaning_is_quiet()
    ensures { CleaningIsQuiet }
{}

/// An eviction.
pub fn evicting_is_quiet()
    ensures { EvictingIsQuiet }
{}

/// A proxied write that lands.
pub fn landing_is_quiet()
    ensures { LandingIsQuiet }
{}

/// Work that begins and is no write request.
pub fn beginning_is_quiet()
    ensures { BeginningIsQuiet }
{}

/// A raise of the epoch, or one that is found, while the cache is not up.
pub fn raising_is_quiet()
    ensures { RaisingIsQuiet }
{}

/// A cache that goes up.
pub fn going_up_is_quiet()
    ensures { GoingUpIsQuiet }
{}
