//! States as they are read.
//!
//! Bytes that are no whole state give nothing. No memory is taken that the bytes do not fill, and
//! nothing is read twice.
ghost use Rattle.std.specs.Prelude.{◌≡◌, [], Some, not, IfOk, IfSome, IfNone};
ghost use Rattle.obj_model.specs.declared.state.NameState.{NameState};
ghost use Rattle.std.specs.Ordering.{is_lt};
ghost use Rattle.std.specs.FinMap as fin;
ghost use Rattle.obj_model.specs.Names.{name_cmp};
ghost use Rattle.rec_codec.specs.Spelling.{SpellsState};
ghost use Rattle.rec_codec.specs.Reading.{Gives, pair_at, pairs_at, kepts_at, table_at, kept_list_at, object_at, object_or_none_at, state_at, whole};

use crate::blocks::{bytes_at, name_at, u8_at, u16_at, u64_at};
use crate::fault::ReadError;
use crate::replies::kept_at;
use obj_model::{
    ATTRS_LIMIT, BODY_LIMIT, Bytes, Items, KeptList, NUMBER_LIMIT, Name, NameMap, NameState,
    NoMemory, OMAP_LIMIT, Obj, PairMap, VALUE_LIMIT,
};
use std::alloc::Global;
use std::cmp::Ordering;

// A key with its value, the bytes of the key where they stand, and the bytes after the value.
#[tactic(auto, unfolding(crate::specs::Reading::pair_at))]
fn pair_at(alloc: Global, bytes: &[u8]) -> Result<(Name, Bytes, &[u8], &[u8]), ReadError>
    ensures given { Gives (λ x. ((x.0, x.1), x.3.now)) result (pair_at bytes.now) }
    ensures text { IfOk result (λ x. x.2.now ≡ x.0) }
{
    let (text, key, rest) = name_at(alloc, bytes)?;
    let (value, rest) = bytes_at(alloc, rest, VALUE_LIMIT as u32)?;
    Ok((key, value, text, rest))
}

// Whether a key is not above the last one.
fn is_out_of_order(last: &[u8], key: &[u8]) -> bool
    ensures { is_lt (name_cmp last.now key.now) ≡ not result }
{
    match last.cmp(key) {
        Ordering::Less => false,
        Ordering::Equal | Ordering::Greater => true,
    }
}

// So many pairs, whose keys rise.
fn pairs_at(alloc: Global, count: u16, bytes: &[u8]) -> Result<(PairMap, &[u8]), ReadError>
    ensures { Gives (λ x. (fin.entries x.0, x.1.now)) result (pairs_at [] count bytes.now) }
{
    let mut table = NameMap::new(alloc);
    let mut last: &[u8] = &[];
    let mut rest = bytes;
    for _ in 0..count {
        let (key, value, text, after) = pair_at(alloc, rest)?;
        if is_out_of_order(last, text) {
            return Err(ReadError::Wrong);
        }
        table.insert(key, value)?;
        last = text;
        rest = after;
    }
    Ok((table, rest))
}

// A table of at most so many pairs.
#[tactic(auto, using(crate::proofs::Tables::made_of_entries), unfolding(crate::specs::Reading::table_at))]
fn table_at(alloc: Global, bytes: &[u8], most: u16) -> Result<(PairMap, &[u8]), ReadError>
    ensures { Gives (λ x. (x.0, x.1.now)) result (table_at most bytes.now) }
{
    let (count, rest) = u16_at(bytes)?;
    if count > most {
        return Err(ReadError::Wrong);
    }
    let (table, rest) = pairs_at(alloc, count, rest)?;
    Ok((table, rest))
}

// So many kept requests, whose clients rise.
fn kepts_at(alloc: Global, count: u16, bytes: &[u8]) -> Result<(KeptList, &[u8]), ReadError>
    ensures { Gives (λ x. (x.0, x.1.now)) result (kepts_at 0 count bytes.now) }
{
    let mut list = Vec::new(alloc);
    let mut last = 0u16;
    let mut rest = bytes;
    for _ in 0..count {
        let (kept, after) = kept_at(rest)?;
        if kept.client <= last {
            return Err(ReadError::Wrong);
        }
        last = kept.client;
        list.push(kept)?;
        rest = after;
    }
    Ok((Items::from_vec(list), rest))
}

// The kept requests of a state.
#[tactic(auto, unfolding(crate::specs::Reading::kept_list_at))]
fn kept_list_at(alloc: Global, bytes: &[u8]) -> Result<(KeptList, &[u8]), ReadError>
    ensures { Gives (λ x. (x.0, x.1.now)) result (kept_list_at bytes.now) }
{
    let (count, rest) = u16_at(bytes)?;
    kepts_at(alloc, count, rest)
}

// An object.
#[tactic(auto, unfolding(crate::specs::Reading::object_at))]
fn object_at(alloc: Global, bytes: &[u8]) -> Result<(Obj, &[u8]), ReadError>
    ensures { Gives (λ x. (x.0, x.1.now)) result (object_at bytes.now) }
{
    let (body, rest) = bytes_at(alloc, bytes, BODY_LIMIT as u32)?;
    let (attrs, rest) = table_at(alloc, rest, ATTRS_LIMIT as u16)?;
    let (omap, rest) = table_at(alloc, rest, OMAP_LIMIT as u16)?;
    Ok((Obj { body, attrs, omap }, rest))
}

// An object, or that there is none.
#[tactic(auto, unfolding(crate::specs::Reading::object_or_none_at))]
fn object_or_none_at(alloc: Global, bytes: &[u8]) -> Result<(Option<Obj>, &[u8]), ReadError>
    ensures { Gives (λ x. (x.0, x.1.now)) result (object_or_none_at bytes.now) }
{
    let (tag, rest) = u8_at(bytes)?;
    match tag {
        0 => Ok((None, rest)),
        1 => {
            let (obj, rest) = object_at(alloc, rest)?;
            Ok((Some(obj), rest))
        }
        _ => Err(ReadError::Wrong),
    }
}

/// A state at the front, and the bytes after it.
#[tactic(auto, unfolding(crate::specs::Reading::state_at))]
pub(crate) fn state_at(alloc: Global, bytes: &[u8]) -> Result<(NameState, &[u8]), ReadError>
    ensures { Gives (λ x. (x.0, x.1.now)) result (state_at bytes.now) }
{
    let (ver, rest) = u64_at(bytes)?;
    let (seq, rest) = u64_at(rest)?;
    if ver > seq || seq > NUMBER_LIMIT {
        return Err(ReadError::Wrong);
    }
    let (obj, rest) = object_or_none_at(alloc, rest)?;
    let (seen, rest) = kept_list_at(alloc, rest)?;
    Ok((
        NameState {
            ver,
            seq,
            obj,
            seen,
        },
        rest,
    ))
}

// The state that all of the bytes are.
fn whole_state(alloc: Global, bytes: &[u8]) -> Result<NameState, ReadError>
    ensures { Gives (λ s. s) result (whole state_at bytes.now) }
{
    let (state, rest) = state_at(alloc, bytes)?;
    if !rest.is_empty() {
        return Err(ReadError::Wrong);
    }
    Ok(state)
}

// The same, where nothing is no error.
fn state_or_none(alloc: Global, bytes: &[u8]) -> Result<Option<NameState>, NoMemory>
    ensures { IfOk result (λ o. o ≡ whole state_at bytes.now) }
{
    match whole_state(alloc, bytes) {
        Ok(state) => Ok(Some(state)),
        Err(ReadError::Wrong) => Ok(None),
        Err(ReadError::Memory) => Err(NoMemory),
    }
}

/// The state that the bytes, all of them, spell, or nothing where they spell none. It takes no more
/// memory than a small multiple of the bytes, whatever they are, and an error is want of memory
/// alone.
pub fn read_state(alloc: Global, bytes: &[u8]) -> Result<Option<NameState>, NoMemory>
    // What is read is spelled so.
    ensures found { IfOk result (λ o. IfSome o (λ s. SpellsState bytes.now s)) }
    // What is spelled so is read.
    ensures only { (s : NameState) → SpellsState bytes.now s → IfOk result (λ o. o ≡ Some s) }
    // Nothing is read only where nothing is spelled.
    ensures none { IfOk result (λ o. IfNone o ((s : NameState) → SpellsState bytes.now s → ⊥)) }
{
    state_or_none(alloc, bytes)
}
