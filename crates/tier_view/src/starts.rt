//! Stops of the base, losses, openings of the stores, epochs, Fences, and readiness.
ghost use Rattle.tier_view.specs.Starts.{AnsweringFencesKeeps, EndingNotesKeeps, EndingWaitsKeeps, EpochsAreThere, HearingFencedKeeps, LosingMessagesKeeps, LosingRepliesKeeps, OpeningBaseLeavesSums, OpeningStoresKeeps, RaisesHaveTheirLimit, RaisingThereKeeps, ReadingsBehindOpenings, ReadyGroupsServe, SendingFencesKeeps, StoppingBaseKeeps, UnopenedCachesAskNoSums};

/// The base stops, at any moment, in a doubt too: it has to tell its epoch anew.
pub fn stopping_base_keeps()
    ensures { StoppingBaseKeeps }
{}

/// A message is lost or forgotten, at any moment, in a doubt too.
pub fn losing_messages_keeps()
    ensures { LosingMessagesKeeps }
{}

/// A reply is lost or forgotten.
pub fn losing_replies_keeps()
    ensures { LosingRepliesKeeps }
{}

/// The message that a call awaited is forgotten.
pub fn ending_waits_keeps()
    ensures { EndingWaitsKeeps }
{}

/// How far the drain of a call has come is forgotten.
pub fn ending_notes_keeps()
    ensures { EndingNotesKeeps }
{}

/// What a Fence keeps is forgotten, once it was answered.
pub fn answering_fences_keeps()
    ensures { AnsweringFencesKeeps }
{}

/// A store is opened anew: the opening or the reading behind it fails, or it runs again and a doubt
/// about it is settled.
pub fn opening_stores_keeps()
    ensures { OpeningStoresKeeps }
{}

/// What is read behind an opening leaves the store's moments.
pub fn readings_behind_openings()
    ensures { ReadingsBehindOpenings }
{}

/// A failed opening of the cache asks nothing of the totals.
pub fn unopened_caches_ask_no_sums()
    ensures { UnopenedCachesAskNoSums }
{}

/// The base's opening leaves the sums over the cache's records.
pub fn opening_base_leaves_sums()
    ensures { OpeningBaseLeavesSums }
{}

/// The cache commits the epoch above both: it is made, in doubt, or not made.
pub fn raising_there_keeps()
    ensures { RaisingThereKeeps }
{}

/// Where both stores tell, each has memory's epoch of its pool.
pub fn epochs_are_there()
    ensures { EpochsAreThere }
{}

/// A Fence of the cache's epoch is sent.
pub fn sending_fences_keeps()
    ensures { SendingFencesKeeps }
{}

/// The base told the cache's epoch: the cache is up.
pub fn hearing_fenced_keeps()
    ensures { HearingFencedKeeps }
{}

/// What a ready group has: no doubt, a cache that is up, equal epochs, one map in each store.
pub fn ready_groups_serve()
    ensures { ReadyGroupsServe }
{}

/// No epoch is raised above the highest number.
pub fn raises_have_their_limit()
    ensures { RaisesHaveTheirLimit }
{}
