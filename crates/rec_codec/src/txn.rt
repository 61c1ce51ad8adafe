//! Transactions: they are read and written as 1 to 8 changes of distinct keys.
ghost use Rattle.std.specs.Prelude.{◌≡◌, ◌++◌, All, Some, IfOk, IfSome, IfNone, OnOk, List, option_map};
ghost use Rattle.obj_model.specs.declared.change.Change.{Change};
ghost use Rattle.obj_model.specs.Changes.{key_of, IsStoreKey, IsChange, IsTxn};
ghost use Rattle.rec_codec.specs.Spelling.{store_key, change, txn_bytes, SpellsTxn};
ghost use Rattle.rec_codec.specs.Reading.{Gives, store_key_at, change_at, changes_at, is_among, are_apart, txn_at, whole};

use crate::blocks::{bytes_at, taken_at, u8_at, u16_at};
use crate::fault::ReadError;
use crate::put::{put_string, put_u16};
use obj_model::{Bytes, Change, NoMemory};
use std::alloc::{AllocError, Global};

// The most bytes of a key and of a value, and the most changes.
const KEY_LIMIT: u16 = 256;

const VALUE_LIMIT: u32 = 16_777_216;

const CHANGE_LIMIT: u8 = 8;

// The key of a store.
#[tactic(auto, unfolding(crate::specs::Reading::store_key_at))]
fn store_key_at(alloc: Global, bytes: &[u8]) -> Result<(Bytes, &[u8]), ReadError>
    ensures { Gives (λ x. (x.0, x.1.now)) result (store_key_at bytes.now) }
{
    let (len, rest) = u16_at(bytes)?;
    if len < 1 || len > KEY_LIMIT {
        return Err(ReadError::Wrong);
    }
    let (text, rest) = taken_at(rest, len as usize)?;
    Ok((Bytes::from_vec(Vec::from_slice(alloc, text)?), rest))
}

#[tactic(auto, unfolding(crate::specs::Reading::change_at))]
fn change_at(alloc: Global, bytes: &[u8]) -> Result<(Change, &[u8]), ReadError>
    ensures { Gives (λ x. (x.0, x.1.now)) result (change_at bytes.now) }
{
    let (tag, rest) = u8_at(bytes)?;
    match tag {
        1 => {
            let (key, rest) = store_key_at(alloc, rest)?;
            let (value, rest) = bytes_at(alloc, rest, VALUE_LIMIT)?;
            Ok((Change::Put { key, value }, rest))
        }
        2 => {
            let (key, rest) = store_key_at(alloc, rest)?;
            Ok((Change::Remove { key }, rest))
        }
        _ => Err(ReadError::Wrong),
    }
}

// So many changes.
fn changes_at(alloc: Global, count: u8, bytes: &[u8]) -> Result<(Vec<Change>, &[u8]), ReadError>
    ensures { Gives (λ x. (x.0.items, x.1.now)) result (changes_at count bytes.now) }
{
    let mut list = Vec::new(alloc);
    let mut rest = bytes;
    for _ in 0..count {
        let (change, after) = change_at(alloc, rest)?;
        list.push(change)?;
        rest = after;
    }
    Ok((list, rest))
}

fn key_of(change: &Change) -> &[u8]
    ensures { result.now ≡ key_of change.now }
{
    match change {
        Change::Put { key, .. } => key.as_slice(),
        Change::Remove { key } => key.as_slice(),
    }
}

// Whether one of the changes speaks of the key.
fn is_among(changes: &[Change], key: &[u8]) -> bool
    ensures { result ≡ is_among changes.now key.now }
{
    for change in changes {
        if key_of(change) == key {
            return true;
        }
    }
    false
}

// Whether no two of the changes speak of one key.
fn are_apart(changes: &[Change]) -> bool
    ensures { result ≡ are_apart changes.now }
{
    let mut rest = changes;
    while let [first, others @ ..] = rest {
        if is_among(others, key_of(first)) {
            return false;
        }
        rest = others;
    }
    true
}

#[tactic(auto, unfolding(crate::specs::Reading::txn_at))]
fn txn_at(alloc: Global, bytes: &[u8]) -> Result<(Vec<Change>, &[u8]), ReadError>
    ensures { Gives (λ x. (x.0.items, x.1.now)) result (txn_at bytes.now) }
{
    let (count, rest) = u8_at(bytes)?;
    if count < 1 || count > CHANGE_LIMIT {
        return Err(ReadError::Wrong);
    }
    let (changes, rest) = changes_at(alloc, count, rest)?;
    if !are_apart(changes.as_slice()) {
        return Err(ReadError::Wrong);
    }
    Ok((changes, rest))
}

// The transaction that all of the bytes are.
fn whole_txn(alloc: Global, bytes: &[u8]) -> Result<Vec<Change>, ReadError>
    ensures { Gives (λ v. v.items) result (whole txn_at bytes.now) }
{
    let (changes, rest) = txn_at(alloc, bytes)?;
    if !rest.is_empty() {
        return Err(ReadError::Wrong);
    }
    Ok(changes)
}

// The same, where nothing is no error.
fn txn_or_none(alloc: Global, bytes: &[u8]) -> Result<Option<Vec<Change>>, NoMemory>
    ensures { IfOk result (λ o. option_map (λ v. v.items) o ≡ whole txn_at bytes.now) }
{
    match whole_txn(alloc, bytes) {
        Ok(changes) => Ok(Some(changes)),
        Err(ReadError::Wrong) => Ok(None),
        Err(ReadError::Memory) => Err(NoMemory),
    }
}

/// The changes of the transaction that the bytes, all of them, spell, or nothing where they spell
/// none. It takes no more memory than a small multiple of the bytes, whatever they are, and an
/// error is want of memory alone.
pub fn read_txn(alloc: Global, bytes: &[u8]) -> Result<Option<Vec<Change>>, NoMemory>
    // What is read is spelled so.
    ensures found { IfOk result (λ o. IfSome o (λ v. SpellsTxn bytes.now v.items)) }
    // What is spelled so is read.
    ensures only { (cs : List Change) → SpellsTxn bytes.now cs
        → IfOk result (λ o. option_map (λ v. v.items) o ≡ Some cs) }
    // Nothing is read only where nothing is spelled.
    ensures none { IfOk result (λ o. IfNone o ((cs : List Change) → SpellsTxn bytes.now cs → ⊥)) }
{
    txn_or_none(alloc, bytes)
}

// The key of a store behind its length.
fn put_key(out: &mut Vec<u8>, key: &[u8]) -> Result<(), AllocError>
    requires { IsStoreKey key.now }
    ensures { OnOk result (out.new.items ≡ out.old.items ++ store_key key.now) }
{
    put_u16(out, key.len() as u16)?;
    out.extend_from_slice(key)
}

fn put_change(out: &mut Vec<u8>, one: &Change) -> Result<(), AllocError>
    requires { IsChange one.now }
    ensures { OnOk result (out.new.items ≡ out.old.items ++ change one.now) }
{
    match one {
        Change::Put { key, value } => {
            out.push(1)?;
            put_key(out, key.as_slice())?;
            put_string(out, value.as_slice())
        }
        Change::Remove { key } => {
            out.push(2)?;
            put_key(out, key.as_slice())
        }
    }
}

/// The one spelling of a transaction of 1 to 8 changes that are within their limits and of distinct
/// keys, put behind what is there.
pub fn put_txn(out: &mut Vec<u8>, changes: &[Change]) -> Result<(), AllocError>
    requires { IsTxn changes.now }
    ensures { OnOk result (out.new.items ≡ out.old.items ++ txn_bytes changes.now) }
{
    out.push(changes.len() as u8)?;
    for one in changes {
        put_change(out, one)?;
    }
    Ok(())
}

/// The same spelling alone.
pub fn write_txn(alloc: Global, changes: &[Change]) -> Result<Vec<u8>, NoMemory>
    requires { IsTxn changes.now }
    ensures { IfOk result (λ bytes. SpellsTxn bytes.items changes.now) }
{
    let mut out = Vec::with_capacity(alloc, txn_room(changes))?;
    put_txn(&mut out, changes)?;
    Ok(out)
}

/// Room for a transaction's spelling: its bytes, and at most four more for each key that is taken
/// away.
pub fn txn_room(changes: &[Change]) -> usize {
    let mut total = 1usize;
    for one in changes {
        let len = match one {
            Change::Put { key, value } => key
                .as_slice()
                .len()
                .saturating_add(value.as_slice().len()),
            Change::Remove { key } => key.as_slice().len(),
        };
        total = total.saturating_add(len).saturating_add(7);
    }
    total
}
