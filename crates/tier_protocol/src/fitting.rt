//! The moves fit one another, so that none of them is empty.
ghost use Rattle.tier_protocol.specs.Fitting.{FlushesClean, PromotionsGoOn, StartsAreUp, WritesLand};

/// From a stop, whatever is on the wire, a raise, a Fence and its reply lead to a cache that is up,
/// with both pools in a greater epoch.
pub fn starts_are_up()
    ensures { StartsAreUp }
{}

/// A proxied write that begins, is sent and is delivered acts where the plain store would let it
/// act, and can land.
pub fn writes_land()
    ensures { WritesLand }
{}

/// A flush that begins, is sent and is delivered can end, and its clean record can be evicted.
pub fn flushes_clean()
    ensures { FlushesClean }
{}

/// A promotion that asks for the chunk which it wants, and is heard, is given it.
pub fn promotions_go_on()
    ensures { PromotionsGoOn }
{}
