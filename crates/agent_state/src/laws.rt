//! What follows from the definition of the modes. These calls do nothing: their contracts are the
//! laws.
ghost use Rattle.agent_state.specs.Laws.{CleanIsNotFlushed, EffortIsInTenths, EvictingGoesOn, FlushingGoesOn, NoTargetNoEviction};

use crate::Share;
use obj_model::PoolValues;

/// Without targets nothing is evicted, whatever the cache holds.
pub fn no_target_no_eviction(_values: &PoolValues, _share: &Share)
    ensures { NoTargetNoEviction _values.now _share.now }
{}

/// Where each record of a list is clean, nothing is flushed.
#[tactic(auto, using(crate::proofs::Clean::clean))]
pub fn clean_is_not_flushed(_values: &PoolValues, _share: &Share)
    ensures { CleanIsNotFlushed _values.now _share.now }
{}

/// What makes a resting agent flush keeps a working one at it.
pub fn flushing_goes_on(_values: &PoolValues, _share: &Share)
    ensures { FlushingGoesOn _values.now _share.now }
{}

/// What makes a resting agent evict keeps a working one at it.
pub fn evicting_goes_on(_values: &PoolValues, _share: &Share)
    ensures { EvictingGoesOn _values.now _share.now }
{}

/// Where some records are evicted, the effort is a tenth to ten tenths.
pub fn effort_is_in_tenths(_values: &PoolValues, _share: &Share)
    ensures { EffortIsInTenths _values.now _share.now }
{}
