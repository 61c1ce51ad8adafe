//! Runs that exist, so that the laws over runs are not of nothing.
ghost use Rattle.tier_owners.specs.Reaching.{DrainsRun, EmptyPairsRun, FillsRun, FoundRaisesRun, PromotesRun, ReadsRun, RecordsRun, StartsRun, WritesRun};

/// From a stop a run leads to a cache that is up, whatever is on the wire.
pub fn starts_run()
    ensures { StartsRun }
{}

/// From a call that asks a write request a run leads to its answer, where the request acts as the
/// plain store lets it and the act is the call's.
pub fn writes_run()
    ensures { WritesRun }
{}

/// From a bare name a run leads to its clean record, of the plain store's state.
pub fn promotes_run()
    ensures { PromotesRun }
{}

/// From a bare name a run leads to the base's reply to a read, and to the read's end.
pub fn reads_run()
    ensures { ReadsRun }
{}

/// From a record a run leads through a request that acts on it, a flush that marks it clean, and
/// its eviction.
pub fn records_run()
    ensures { RecordsRun }
{}

/// A raise that is found after a doubt counts, and a run leads from it to a cache that is up.
pub fn found_raises_run()
    ensures { FoundRaisesRun }
{}

/// From a dirty record a run leads to its drain.
pub fn drains_run()
    ensures { DrainsRun }
{}

/// The commit of a message that is on the wire may find no space.
pub fn fills_run()
    ensures { FillsRun }
{}

/// From two empty pools that are attached a run leads to a first answer, by an act.
pub fn empty_pairs_run()
    ensures { EmptyPairsRun }
{}
