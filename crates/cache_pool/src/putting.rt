//! The commits of a cache: each changes one key.
ghost use Rattle.std.specs.Prelude.{◌≡◌, ◌≤◌, ◌<◌, ◌+◌, ◌↔◌, ◌∷◌, [], true};
ghost use Rattle.obj_model.specs.Changes.{IsTxn};
ghost use Rattle.obj_model.specs.States.{IsState};
ghost use Rattle.store_face.specs.Views.{Sound};
ghost use Rattle.cache_pool.specs.Puts.{Commits, IsSpelled, epoch_put, record_gone, record_put};

use obj_model::{Bytes, Change, NUMBER_LIMIT, Name};
use pool_keys::{epoch_key, record_key, write_epoch};
use rec_codec::write_tier;
use std::alloc::Global;
use store_face::{Store, StoreFault, commit_one};
use tier_types::TierRec;

// Whether more is needed than is left.
fn is_over(used: u64, need: u64, limit: u64) -> bool
    ensures { (result ≡ true) ↔ (limit < used + need) }
{
    match used.checked_add(need) {
        Some(sum) => limit < sum,
        None => true,
    }
}

// The commit of one change. A store that tells of a want of room with numbers that are none, as
// only one over a disk that tells nothing can, had no memory for it.
#[tactic(auto, using(crate::proofs::Committing::commit_rules))]
fn commit<P: Store>(alloc: Global, store: &mut P, change: Change) -> Result<(), StoreFault>
    requires live { (P.state store.old).live ≡ true }
    requires sound { Sound (P.state store.old) }
    requires lawful { IsTxn (change ∷ []) }
    ensures put { Commits (change ∷ []) (P.state store.old) (P.state store.new) result }
    ensures sound { Sound (P.state store.new) }
{
    match commit_one(alloc, store, change) {
        Err(StoreFault::NoSpace { used, need, limit }) => {
            if is_over(used, need, limit) {
                Err(StoreFault::NoSpace { used, need, limit })
            } else {
                Err(StoreFault::NoMemory)
            }
        }
        other => other,
    }
}

/// Puts a name's record into the store.
#[tactic(auto, using(crate::proofs::Committing::record_rules))]
pub fn put_record<P: Store>(
    alloc: Global,
    store: &mut P,
    name: &Name,
    held: &TierRec,
) -> Result<(), StoreFault>
    requires live { (P.state store.old).live ≡ true }
    requires sound { Sound (P.state store.old) }
    requires lawful { IsState held.now.state }
    ensures put { Commits (record_put name.now held.now) (P.state store.old) (P.state store.new)
        result }
    ensures spelled { IsSpelled held.now result }
    ensures sound { Sound (P.state store.new) }
{
    let key = record_key(alloc, name)?;
    let value = Bytes::from_vec(write_tier(alloc, &held.state, held.dirty, held.mtime)?);
    commit(alloc, store, Change::Put { key, value })
}

/// Takes a name's record out of the store.
#[tactic(auto, using(crate::proofs::Committing::gone_rules))]
pub fn drop_record<P: Store>(alloc: Global, store: &mut P, name: &Name) -> Result<(), StoreFault>
    requires live { (P.state store.old).live ≡ true }
    requires sound { Sound (P.state store.old) }
    ensures gone { Commits (record_gone name.now) (P.state store.old) (P.state store.new) result }
    ensures sound { Sound (P.state store.new) }
{
    let key = record_key(alloc, name)?;
    commit(alloc, store, Change::Remove { key })
}

/// Puts the epoch into the store.
#[tactic(auto, using(crate::proofs::Committing::epoch_rules))]
pub fn put_epoch<P: Store>(alloc: Global, store: &mut P, epoch: u64) -> Result<(), StoreFault>
    requires live { (P.state store.old).live ≡ true }
    requires sound { Sound (P.state store.old) }
    requires least { 1 ≤ epoch }
    requires most { epoch ≤ NUMBER_LIMIT }
    ensures put { Commits (epoch_put epoch) (P.state store.old) (P.state store.new) result }
    ensures sound { Sound (P.state store.new) }
{
    let key = epoch_key(alloc)?;
    let value = write_epoch(alloc, epoch)?;
    commit(alloc, store, Change::Put { key, value })
}
