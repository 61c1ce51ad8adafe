//! What stands under one key of a pool.
ghost use Rattle.std.specs.Prelude.{IfNone, IfOk, IfSome};
ghost use Rattle.rec_codec.specs.Spelling.{SpellsParts, TierParts};
ghost use Rattle.pool_survey.specs.Causes.{IsBaseEntry, IsCacheEntry};
ghost use Rattle.pool_survey.specs.Steps.{IsHeld, IsKept, SpellsRec};

use obj_model::{Name, NameState, NoMemory};
use pool_keys::{PoolKey, read_epoch, read_key};
use rec_codec::{read_state, read_tier};
use std::alloc::Global;
use tier_types::TierRec;

/// What a key of the cache and its value spell.
#[derive(Debug, Drop)]
pub(crate) enum Held {
    /// The cache's epoch.
    Epoch(u64),
    /// The record of this name.
    Record(Name, TierRec),
}

/// What a key of the base and its value spell.
#[derive(Debug, Drop)]
pub(crate) enum Kept {
    /// The base's epoch.
    Epoch(u64),
    /// The state of this name.
    State(Name, NameState),
}

// The record that a value spells, if it spells one.
fn record_of(alloc: Global, value: &[u8]) -> Result<Option<TierRec>, NoMemory>
    ensures found { IfOk result (λ o. IfSome o (SpellsRec value.now)) }
    ensures none { IfOk result (λ o. IfNone o ((r : TierParts) → SpellsParts value.now r → ⊥)) }
{
    match read_tier(alloc, value)? {
        None => Ok(None),
        Some((state, dirty, mtime)) => Ok(Some(TierRec {
            state,
            dirty,
            mtime,
        })),
    }
}

/// What a key of the cache and its value spell, or nothing where they are no entry of a cache.
#[tactic(auto, using(crate::proofs::UnderKeys::held_rules))]
pub(crate) fn held_at(alloc: Global, key: &[u8], value: &[u8]) -> Result<Option<Held>, NoMemory>
    ensures found { IfOk result (λ o. IfSome o (IsHeld key.now value.now)) }
    ensures none { IfOk result (λ o. IfNone o (IsCacheEntry key.now value.now → ⊥)) }
{
    match read_key(alloc, key)? {
        None => Ok(None),
        Some(PoolKey::Epoch) => match read_epoch(value) {
            None => Ok(None),
            Some(epoch) => Ok(Some(Held::Epoch(epoch))),
        },
        Some(PoolKey::Record(name)) => match record_of(alloc, value)? {
            None => Ok(None),
            Some(record) => Ok(Some(Held::Record(name, record))),
        },
        Some(PoolKey::State(_)) => Ok(None),
    }
}

/// What a key of the base and its value spell, or nothing where they are no entry of a base.
#[tactic(auto, using(crate::proofs::UnderKeys::kept_rules))]
pub(crate) fn kept_at(alloc: Global, key: &[u8], value: &[u8]) -> Result<Option<Kept>, NoMemory>
    ensures found { IfOk result (λ o. IfSome o (IsKept key.now value.now)) }
    ensures none { IfOk result (λ o. IfNone o (IsBaseEntry key.now value.now → ⊥)) }
{
    match read_key(alloc, key)? {
        None => Ok(None),
        Some(PoolKey::Epoch) => match read_epoch(value) {
            None => Ok(None),
            Some(epoch) => Ok(Some(Kept::Epoch(epoch))),
        },
        Some(PoolKey::State(name)) => match read_state(alloc, value)? {
            None => Ok(None),
            Some(state) => Ok(Some(Kept::State(name, state))),
        },
        Some(PoolKey::Record(_)) => Ok(None),
    }
}
