//! Records of the cache: the state of a name, whether it is dirty, and the moment of its last
//! change.
ghost use Rattle.std.specs.Prelude.{◌≡◌, ◌≤◌, ◌++◌, Some, IfOk, IfSome, IfNone, OnOk, length};
ghost use Rattle.obj_model.specs.States.{IsState};
ghost use Rattle.rec_codec.specs.Spelling.{mark, tier_bytes, IsTyped, SpellsTier, TierParts, SpellsParts};
ghost use Rattle.rec_codec.specs.Reading.{Gives, mark_at, tier_at, whole};

use crate::blocks::{u8_at, u64_at};
use crate::fault::ReadError;
use crate::put::put_u64;
use crate::reading::state_at;
use crate::writing::{put_state, state_len};
use obj_model::{NameState, NoMemory};
use std::alloc::{AllocError, Global};

// The mark of a record: whether it is dirty.
#[tactic(auto, unfolding(crate::specs::Reading::mark_at))]
fn mark_at(bytes: &[u8]) -> Result<(bool, &[u8]), ReadError>
    ensures { Gives (λ x. (x.0, x.1.now)) result (mark_at bytes.now) }
{
    let (mark, rest) = u8_at(bytes)?;
    if mark > 1 {
        return Err(ReadError::Wrong);
    }
    Ok((mark == 1, rest))
}

// A record at the front, and the bytes after it.
#[tactic(auto, unfolding(crate::specs::Reading::tier_at))]
fn tier_at(alloc: Global, bytes: &[u8]) -> Result<((NameState, bool, u64), &[u8]), ReadError>
    ensures { Gives (λ x. (x.0, x.1.now)) result (tier_at bytes.now) }
{
    let (state, rest) = state_at(alloc, bytes)?;
    let (dirty, rest) = mark_at(rest)?;
    let (mtime, rest) = u64_at(rest)?;
    Ok(((state, dirty, mtime), rest))
}

// The record that all of the bytes are.
fn whole_tier(alloc: Global, bytes: &[u8]) -> Result<(NameState, bool, u64), ReadError>
    ensures { Gives (λ r. r) result (whole tier_at bytes.now) }
{
    let (record, rest) = tier_at(alloc, bytes)?;
    if !rest.is_empty() {
        return Err(ReadError::Wrong);
    }
    Ok(record)
}

// The same, where nothing is no error.
fn tier_or_none(alloc: Global, bytes: &[u8]) -> Result<Option<(NameState, bool, u64)>, NoMemory>
    ensures { IfOk result (λ o. o ≡ whole tier_at bytes.now) }
{
    match whole_tier(alloc, bytes) {
        Ok(record) => Ok(Some(record)),
        Err(ReadError::Wrong) => Ok(None),
        Err(ReadError::Memory) => Err(NoMemory),
    }
}

/// The state, whether it is dirty, and the moment of its last change, as the bytes, all of them,
/// spell them, or nothing where they spell no record. It takes no more memory than a small multiple
/// of the bytes, whatever they are, and an error is want of memory alone.
pub fn read_tier(alloc: Global, bytes: &[u8]) -> Result<Option<(NameState, bool, u64)>, NoMemory>
    // What is read is spelled so.
    ensures found { IfOk result (λ o. IfSome o (λ r. SpellsParts bytes.now r)) }
    // What is spelled so is read.
    ensures only { (r : TierParts) → SpellsParts bytes.now r → IfOk result (λ o. o ≡ Some r) }
    // Nothing is read only where nothing is spelled.
    ensures none { IfOk result (λ o. IfNone o ((r : TierParts) → SpellsParts bytes.now r → ⊥)) }
{
    tier_or_none(alloc, bytes)
}

// The spelling, put behind what is there.
fn put_tier(out: &mut Vec<u8>, state: &NameState, dirty: bool, mtime: u64) -> Result<(), AllocError>
    requires { IsState state.now }
    ensures put { OnOk result (out.new.items ≡ out.old.items ++ tier_bytes state.now dirty mtime) }
    ensures typed { OnOk result (IsTyped state.now) }
{
    put_state(out, state)?;
    out.push(u8::from(dirty))?;
    put_u64(out, mtime)?;
    Ok(())
}

// The spelling alone.
fn tier_spelled(
    alloc: Global,
    state: &NameState,
    dirty: bool,
    mtime: u64,
) -> Result<Vec<u8>, NoMemory>
    requires { IsState state.now }
    ensures { IfOk result (λ bytes. SpellsTier bytes.items state.now dirty mtime) }
{
    let mut out = Vec::with_capacity(alloc, state_len(state).saturating_add(9))?;
    put_tier(&mut out, state, dirty, mtime)?;
    Ok(out)
}

/// The one spelling of a record whose state is within its limits: at most 16,777,216 bytes, as a
/// value of a store may have. `mtime` is in seconds.
pub fn write_tier(
    alloc: Global,
    state: &NameState,
    dirty: bool,
    mtime: u64,
) -> Result<Vec<u8>, NoMemory>
    requires { IsState state.now }
    ensures spelled { IfOk result (λ bytes. SpellsTier bytes.items state.now dirty mtime) }
    ensures short { IfOk result (λ bytes. length bytes.items ≤ 16777216) }
{
    tier_spelled(alloc, state, dirty, mtime)
}
