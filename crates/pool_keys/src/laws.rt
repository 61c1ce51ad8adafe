//! Laws of keys and of the maps that they make.
ghost use Rattle.pool_keys.specs.Laws.{BaseIsOne, BaseStands, CacheIsOne, CacheStands, EpochIsOne, KeyIsOne, KeysRise, RecordIsOne, StateIsOne};

/// A key is of one kind, and of one name.
#[tactic(auto, using(crate::proofs::Keys::key_one))]
pub fn key_is_one()
    ensures { KeyIsOne }
{}

/// Keys of names rise as the names do, and the key of the epoch is below all of them: so the keys
/// of
/// a map, in their order, bring the names in theirs.
#[tactic(auto, using(crate::proofs::Keys::rise))]
pub fn keys_rise()
    ensures { KeysRise }
{}

/// A pool is at one epoch.
#[tactic(auto, using(crate::proofs::Epochs::epoch_one))]
pub fn epoch_is_one()
    ensures { EpochIsOne }
{}

/// The base has one state of a name.
#[tactic(auto, using(crate::proofs::Bases::state_one))]
pub fn state_is_one()
    ensures { StateIsOne }
{}

/// A base's map whose keys and values are all spelled stands for a plain store at an epoch.
pub fn base_stands()
    ensures { BaseStands }
{}

/// It stands for one only: two stores that it stands for have the same state of each name.
pub fn base_is_one()
    ensures { BaseIsOne }
{}

/// The cache has one record of a name, or none.
pub fn record_is_one()
    ensures { RecordIsOne }
{}

/// A cache's map whose keys and values are all spelled stands for records at an epoch.
pub fn cache_stands()
    ensures { CacheStands }
{}

/// It stands for one map of records only.
pub fn cache_is_one()
    ensures { CacheIsOne }
{}
