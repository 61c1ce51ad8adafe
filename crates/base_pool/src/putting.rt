//! The commits of a base: each puts one value.
ghost use Rattle.std.specs.Prelude.{◌≡◌, ◌≤◌, ◌∷◌, [], true, Some};
ghost use Rattle.byteorder.specs.Endian.{big_bytes};
ghost use Rattle.obj_model.specs.States.{IsState};
ghost use Rattle.obj_model.specs.declared.change.Change.TheVariants.{Put};
ghost use Rattle.pool_keys.specs.Keys.{epoch_key};
ghost use Rattle.store_face.specs.Calls.{Committed};
ghost use Rattle.store_face.specs.Views.{Sound};
ghost use Rattle.base_pool.specs.Serves.{state_put};
ghost use Rattle.base_pool.specs.Steps.{Spells, refused_by};

use crate::BaseFault;
use obj_model::{Bytes, Change, NUMBER_LIMIT, Name, NameState};
use pool_keys::{epoch_key, state_key, write_epoch};
use rec_codec::write_state;
use std::alloc::Global;
use store_face::{Store, StoreFault, commit_one};
use tier_types::BaseReply;

/// Puts a name's state into the store.
#[tactic(auto, using(crate::proofs::Puts::state_rules))]
pub(crate) fn put_state<P: Store>(
    alloc: Global,
    store: &mut P,
    name: &Name,
    state: &NameState,
) -> Result<(), StoreFault>
    requires live { (P.state store.old).live ≡ true }
    requires sound { Sound (P.state store.old) }
    requires lawful { IsState state.now }
    ensures put { Committed (state_put (Some name.now) (Some state.now)) (P.state store.old)
        (P.state store.new) result }
    ensures spelled { Spells state.now result }
    ensures sound { Sound (P.state store.new) }
{
    let key = state_key(alloc, name)?;
    let value = Bytes::from_vec(write_state(alloc, state)?);
    commit_one(alloc, store, Change::Put { key, value })
}

/// Puts the epoch into the store.
#[tactic(auto, using(crate::proofs::Puts::epoch_rules))]
pub(crate) fn put_epoch<P: Store>(
    alloc: Global,
    store: &mut P,
    epoch: u64,
) -> Result<(), StoreFault>
    requires live { (P.state store.old).live ≡ true }
    requires sound { Sound (P.state store.old) }
    requires least { 1 ≤ epoch }
    requires most { epoch ≤ NUMBER_LIMIT }
    ensures put { Committed (Put epoch_key (big_bytes 8 epoch) ∷ []) (P.state store.old)
        (P.state store.new) result }
    ensures sound { Sound (P.state store.new) }
{
    let key = epoch_key(alloc)?;
    let value = write_epoch(alloc, epoch)?;
    commit_one(alloc, store, Change::Put { key, value })
}

/// What a failed commit is to the sender of the message that needed it.
pub(crate) fn refused(fault: StoreFault, epoch: u64, opid: u64) -> Result<BaseReply, BaseFault>
    ensures { result ≡ refused_by fault epoch opid }
{
    match fault {
        StoreFault::NoSpace { used, need, limit } => Ok(BaseReply::NoSpace {
            epoch,
            opid,
            used,
            need,
            limit,
        }),
        StoreFault::Disk => Err(BaseFault::Store(StoreFault::Disk)),
        StoreFault::BadImage { at } => Err(BaseFault::Store(StoreFault::BadImage { at })),
        StoreFault::Worn { limit } => Err(BaseFault::Store(StoreFault::Worn { limit })),
        StoreFault::NoMemory => Err(BaseFault::Store(StoreFault::NoMemory)),
    }
}
