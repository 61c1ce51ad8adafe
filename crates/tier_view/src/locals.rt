//! Commits of the cache.
ghost use Rattle.tier_view.specs.Locals.{ActingHereKeeps, CleaningHereKeeps, EvictingHereKeeps, FreeLetsWrite, LastActIsPlaced, LeavingCacheKeeps, PromotingActsHereKeeps, PromotingHereKeeps, RecordsAnswerPlainly, RecordsAreNotBare, RecordsTellTruth, SoundIsFew, SumsFollow};

/// Where one record gives place to another, the sums over all follow.
pub fn sums_follow()
    ensures { SumsFollow }
{}

/// The sums over the records of a live store are within their limit.
pub fn sound_is_few()
    ensures { SoundIsFew }
{}

/// The cache is only read, or its disk fails in that.
pub fn leaving_cache_keeps()
    ensures { LeavingCacheKeeps }
{}

/// A name that is free to writers lets them in, where its work is none for which the cache has no
/// record.
pub fn free_lets_write()
    ensures { FreeLetsWrite }
{}

/// It is none such where the cache has a record and both stores tell.
pub fn records_are_not_bare()
    ensures { RecordsAreNotBare }
{}

/// A request acts on a record: its commit is made, in doubt, or not made.
pub fn acting_here_keeps()
    ensures { ActingHereKeeps }
{}

/// A clean record is evicted.
pub fn evicting_here_keeps()
    ensures { EvictingHereKeeps }
{}

/// A flush ends with a clean record, or without one where the cache is drained.
pub fn cleaning_here_keeps()
    ensures { CleaningHereKeeps }
{}

/// A promotion ends with a clean record.
pub fn promoting_here_keeps()
    ensures { PromotingHereKeeps }
{}

/// A promotion ends, and its request acts at once, in one commit.
pub fn promoting_acts_here_keeps()
    ensures { PromotingActsHereKeeps }
{}

/// The act that came last has the number of all acts.
pub fn last_act_is_placed()
    ensures { LastActIsPlaced }
{}

/// What a record answers, the plain store answers.
pub fn records_answer_plainly()
    ensures { RecordsAnswerPlainly }
{}

/// What an answer tells of a record's state is the truth at the present place.
pub fn records_tell_truth()
    ensures { RecordsTellTruth }
{}
