//! The commits of the cache.
ghost use Rattle.tier_join.specs.Laws.{ActingPromises, CleaningPromises, DrainingPromises, EvictingPromises, PromotingActsPromises, PromotingPromises, RaisingPromises};

/// A request acts on a record. A stop meanwhile leaves the plain store of before, or the one with
/// the request.
pub fn acting_promises()
    ensures { ActingPromises }
{}

/// A promotion ends with a clean record. Where the disk fails its work is gone, whether the record
/// is there or not.
pub fn promoting_promises()
    ensures { PromotingPromises }
{}

/// A promotion ends and its request acts, in one commit.
pub fn promoting_acts_promises()
    ensures { PromotingActsPromises }
{}

/// A flush ends with a clean record.
pub fn cleaning_promises()
    ensures { CleaningPromises }
{}

/// A flush of a cache that is drained ends without a record.
pub fn draining_promises()
    ensures { DrainingPromises }
{}

/// A clean record is evicted.
pub fn evicting_promises()
    ensures { EvictingPromises }
{}

/// The epoch of a cache that is down is raised above those of both pools.
pub fn raising_promises()
    ensures { RaisingPromises }
{}
