//! The keys of a pool's map.
ghost use Rattle.std.specs.Prelude.{◌≡◌, ◌∷◌, IfOk, IfNone, IfSome, None};
ghost use Rattle.obj_model.specs.Changes.{IsStoreKey};
ghost use Rattle.obj_model.specs.Names.{name_fault};
ghost use Rattle.pool_keys.specs.Keys.{IsOf, epoch_key, record_key, state_key};
ghost use Rattle.pool_keys.specs.declared.key.PoolKey.{PoolKey};

use obj_model::{Bytes, Name, NoMemory};
use std::alloc::Global;

const EPOCH: u8 = b'E';

const STATE: u8 = b'N';

const RECORD: u8 = b'R';

/// What a key of a pool's map is of.
#[derive(Debug, Drop)]
pub enum PoolKey {
    /// The pool's epoch.
    Epoch,
    /// The state of this name, in the base.
    State(Name),
    /// The record of this name, in the cache.
    Record(Name),
}

/// The key of a pool's epoch.
pub fn epoch_key(alloc: Global) -> Result<Bytes, NoMemory>
    ensures key { IfOk result (λ key. key ≡ epoch_key) }
    ensures fits { IsStoreKey epoch_key }
{
    let mut key = Vec::with_capacity(alloc, 1)?;
    key.push(EPOCH)?;
    Ok(Bytes::from_vec(key))
}

// A letter and a name behind it.
fn key_with(alloc: Global, letter: u8, name: &Name) -> Result<Bytes, NoMemory>
    ensures key { IfOk result (λ key. key ≡ letter ∷ name.now) }
    ensures lawful { name_fault name.now ≡ None }
{
    let bytes = name.bytes();
    let mut key = Vec::with_capacity(alloc, 1 + bytes.len())?;
    key.push(letter)?;
    key.extend_from_slice(bytes)?;
    Ok(Bytes::from_vec(key))
}

/// The key of a name's state in the base.
#[tactic(auto, using(crate::proofs::Keys::state_key_fits))]
pub fn state_key(alloc: Global, name: &Name) -> Result<Bytes, NoMemory>
    ensures key { IfOk result (λ key. key ≡ state_key name.now) }
    ensures lawful { name_fault name.now ≡ None }
    ensures fits { IsStoreKey (state_key name.now) }
{
    key_with(alloc, STATE, name)
}

/// The key of a name's record in the cache.
#[tactic(auto, using(crate::proofs::Keys::record_key_fits))]
pub fn record_key(alloc: Global, name: &Name) -> Result<Bytes, NoMemory>
    ensures key { IfOk result (λ key. key ≡ record_key name.now) }
    ensures lawful { name_fault name.now ≡ None }
    ensures fits { IsStoreKey (record_key name.now) }
{
    key_with(alloc, RECORD, name)
}

// The name that bytes are, if they are one.
fn name_in(alloc: Global, bytes: &[u8]) -> Result<Option<Name>, NoMemory>
    ensures found { IfOk result (λ o. IfSome o (λ name. (name ≡ bytes.now)
        × (name_fault bytes.now ≡ None))) }
    ensures none { IfOk result (λ o. IfNone o (name_fault bytes.now ≡ None → ⊥)) }
{
    match Name::new(Vec::from_slice(alloc, bytes)?) {
        Ok(name) => Ok(Some(name)),
        Err(_) => Ok(None),
    }
}

/// What a key is of, or nothing where no pool has such a key.
pub fn read_key(alloc: Global, key: &[u8]) -> Result<Option<PoolKey>, NoMemory>
    ensures found { IfOk result (λ o. IfSome o (IsOf key.now)) }
    ensures none { IfOk result (λ o. IfNone o ((kind : PoolKey) → IsOf key.now kind → ⊥)) }
{
    match key {
        [EPOCH] => Ok(Some(PoolKey::Epoch)),
        [STATE, bytes @ ..] => match name_in(alloc, bytes)? {
            Some(name) => Ok(Some(PoolKey::State(name))),
            None => Ok(None),
        },
        [RECORD, bytes @ ..] => match name_in(alloc, bytes)? {
            Some(name) => Ok(Some(PoolKey::Record(name))),
            None => Ok(None),
        },
        _ => Ok(None),
    }
}
