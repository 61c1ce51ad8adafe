//! Each move keeps the pair sound.
ghost use Rattle.tier_protocol.specs.Laws.{ActingKeeps, BaseAlone, BeginningKeeps, CleaningKeeps, CountingKeeps, DeliveringKeeps, EachStands, EvictingKeeps, FillingKeeps, FindingKeeps, FoundIsSound, GatheringKeeps, GoingUpKeeps, HistoryIsLegal, LandingKeeps, LeavingKeeps, LosingKeeps, PromotingKeeps, RaisingKeeps, SendingKeeps, SoundStands, StoppingKeeps};

/// Whatever message of the wire the base is given, for the first time, again or late: what it does
/// to its states and what it replies keep the pair sound.
#[tactic(auto, using(crate::proofs::Delivers::delivering))]
pub fn delivering_keeps()
    ensures { DeliveringKeeps }
{}

/// A message whose commit finds no space changes nothing, and its reply keeps the pair sound.
pub fn filling_keeps()
    ensures { FillingKeeps }
{}

/// A request that acts on a record keeps the pair sound.
pub fn acting_keeps()
    ensures { ActingKeeps }
{}

/// A promotion that takes the chunk which it wants keeps the pair sound.
pub fn gathering_keeps()
    ensures { GatheringKeeps }
{}

/// A promotion that has all chunks ends with the state that the name has in the plain store.
pub fn promoting_keeps()
    ensures { PromotingKeeps }
{}

/// A flush that ends leaves a clean record, or none where the cache is drained, and the pair sound.
pub fn cleaning_keeps()
    ensures { CleaningKeeps }
{}

/// The eviction of a clean record that nothing is under way on keeps the pair sound.
#[tactic(auto, using(crate::proofs::Steps::evicting))]
pub fn evicting_keeps()
    ensures { EvictingKeeps }
{}

/// Work that begins under the next number keeps the pair sound.
#[tactic(auto, using(crate::proofs::Steps::beginning))]
pub fn beginning_keeps()
    ensures { BeginningKeeps }
{}

/// What work sends, at first, again or under another call, keeps the pair sound; so does a Fence.
pub fn sending_keeps()
    ensures { SendingKeeps }
{}

/// A proxied write whose reply came can end.
pub fn landing_keeps()
    ensures { LandingKeeps }
{}

/// Lost messages and replies, calls that end, and calls that take over keep the pair sound.
pub fn losing_keeps()
    ensures { LosingKeeps }
{}

/// The same of the work of one name.
#[tactic(auto, using(crate::proofs::Steps::leaving))]
pub fn leaving_keeps()
    ensures { LeavingKeeps }
{}

/// A stop of either pool keeps the pair sound, whatever is on the wire.
#[tactic(auto, using(crate::proofs::Steps::stopping))]
pub fn stopping_keeps()
    ensures { StoppingKeeps }
{}

/// The raising of the cache's epoch above both keeps the pair sound.
pub fn raising_keeps()
    ensures { RaisingKeeps }
{}

/// A raise that was in doubt and is found keeps the pair sound, and counts as a raise.
pub fn finding_keeps()
    ensures { FindingKeeps }
{}

/// An epoch that is found above the base's counts as a raise.
#[tactic(auto, using(crate::proofs::Steps::counting))]
pub fn counting_keeps()
    ensures { CountingKeeps }
{}

/// The cache that receives Fenced of its epoch is up, and both epochs are one.
#[tactic(auto, using(crate::proofs::Steps::going_up))]
pub fn going_up_keeps()
    ensures { GoingUpKeeps }
{}

/// What stands for a store is sound as it is found.
pub fn found_is_sound()
    ensures { FoundIsSound }
{}

/// A sound pair stands for the store that its acts leave.
#[tactic(auto, using(crate::proofs::Steps::sound_stands))]
pub fn sound_stands()
    ensures { SoundStands }
{}

/// The same of one name, by its record.
#[tactic(auto, using(crate::proofs::Steps::each_stands))]
pub fn each_stands()
    ensures { EachStands }
{}

/// Without records the base alone is the plain store.
#[tactic(auto, using(crate::proofs::Steps::base_alone))]
pub fn base_alone()
    ensures { BaseAlone }
{}

/// Each act of the history acts on the store that those before it leave.
#[tactic(auto, using(crate::proofs::Steps::history_legal))]
pub fn history_is_legal()
    ensures { HistoryIsLegal }
{}
