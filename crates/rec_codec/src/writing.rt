//! States as they are written: the length first, and then one buffer that is filled.
ghost use Rattle.std.specs.Prelude.{◌≡◌, ◌<◌, ◌≤◌, ◌^◌, ◌++◌, All, IfOk, OnOk, length, None};
ghost use Rattle.byteorder.specs.Endian.{big_bytes};
ghost use Rattle.obj_model.specs.Names.{name_fault};
ghost use Rattle.obj_model.specs.States.{IsTable, IsObjOrNone, IsState};
ghost use Rattle.rec_codec.specs.Spelling.{name, string, why, reply, kept, kept_list, table, object_or_none, state_bytes, IsFitWhy, IsFitReply, IsNamed, IsNamedObj, IsTyped, SpellsState};

use crate::put::{put_name, put_string, put_u16, put_u64};
use obj_model::{Kept, NameState, NoMemory, OMAP_LIMIT, Obj, PairMap, Reply, Why};
use std::alloc::{AllocError, Global};

fn put_why(out: &mut Vec<u8>, reason: Why) -> Result<(), AllocError>
    ensures put { OnOk result (out.new.items ≡ out.old.items ++ why reason) }
    ensures fit { IsFitWhy reason }
{
    match reason {
        Why::Exists => out.push(1)?,
        Why::NoEnt => out.push(2)?,
        Why::NoData => out.push(3)?,
        Why::Canceled => out.push(4)?,
        Why::Range => out.push(5)?,
        Why::Overflow => out.push(6)?,
        Why::TooBig { limit, asked } => {
            out.push(7)?;
            put_u64(out, limit)?;
            put_u64(out, asked)?;
        }
    }
    Ok(())
}

fn put_reply(out: &mut Vec<u8>, answer: Reply) -> Result<(), AllocError>
    ensures put { OnOk result (out.new.items ≡ out.old.items ++ reply answer) }
    ensures fit { IsFitReply answer }
{
    match answer {
        Reply::Done { ver } => {
            out.push(1)?;
            put_u64(out, ver)
        }
        Reply::Refused { at, why, ver } => {
            out.push(2)?;
            out.push(at)?;
            put_why(out, why)?;
            put_u64(out, ver)
        }
    }
}

fn put_kept(out: &mut Vec<u8>, one: Kept) -> Result<(), AllocError>
    ensures put { OnOk result (out.new.items ≡ out.old.items ++ kept one) }
    ensures fit { IsFitReply one.reply }
{
    put_u16(out, one.client)?;
    put_u64(out, one.tid)?;
    put_reply(out, one.reply)
}

// The kept requests behind their number.
fn put_kept_list(out: &mut Vec<u8>, list: &[Kept]) -> Result<(), AllocError>
    requires { length list.now < 2 ^ 16 }
    ensures put { OnOk result (out.new.items ≡ out.old.items ++ kept_list list.now) }
    ensures fit { OnOk result (All (λ k. IsFitReply k.reply) list.now) }
{
    put_u16(out, list.len() as u16)?;
    for one in list {
        put_kept(out, *one)?;
    }
    Ok(())
}

// The pairs of a table behind their number.
fn put_table(out: &mut Vec<u8>, pairs: &PairMap) -> Result<(), AllocError>
    requires { IsTable OMAP_LIMIT pairs.now }
    ensures put { OnOk result (out.new.items ≡ out.old.items ++ table pairs.now) }
    ensures named { OnOk result (IsNamed pairs.now) }
{
    put_u16(out, pairs.len() as u16)?;
    for (key, value) in pairs.iter() {
        put_name(out, key)?;
        put_string(out, value.as_slice())?;
    }
    Ok(())
}

// Whether there is an object, and the object.
fn put_object(out: &mut Vec<u8>, obj: &Option<Obj>) -> Result<(), AllocError>
    requires { IsObjOrNone obj.now }
    ensures put { OnOk result (out.new.items ≡ out.old.items ++ object_or_none obj.now) }
    ensures named { OnOk result (IsNamedObj obj.now) }
{
    match obj {
        None => out.push(0)?,
        Some(obj) => {
            out.push(1)?;
            put_string(out, obj.body.as_slice())?;
            put_table(out, &obj.attrs)?;
            put_table(out, &obj.omap)?;
        }
    }
    Ok(())
}

/// The spelling, put behind what is there.
pub(crate) fn put_state(out: &mut Vec<u8>, state: &NameState) -> Result<(), AllocError>
    requires { IsState state.now }
    ensures put { OnOk result (out.new.items ≡ out.old.items ++ state_bytes state.now) }
    ensures typed { OnOk result (IsTyped state.now) }
{
    put_u64(out, state.ver)?;
    put_u64(out, state.seq)?;
    put_object(out, &state.obj)?;
    put_kept_list(out, state.seen.as_slice())?;
    Ok(())
}

// The spelling alone.
fn state_spelled(alloc: Global, state: &NameState) -> Result<Vec<u8>, NoMemory>
    requires { IsState state.now }
    ensures { IfOk result (λ bytes. SpellsState bytes.items state.now) }
{
    let mut out = Vec::with_capacity(alloc, state_len(state))?;
    put_state(&mut out, state)?;
    Ok(out)
}

/// The one spelling of a state that is within its limits: at most 16,777,216 bytes, as a value of a
/// store may have.
pub fn write_state(alloc: Global, state: &NameState) -> Result<Vec<u8>, NoMemory>
    requires { IsState state.now }
    ensures spelled { IfOk result (λ bytes. SpellsState bytes.items state.now) }
    ensures short { IfOk result (λ bytes. length bytes.items ≤ 16777216) }
{
    state_spelled(alloc, state)
}

// The bytes of a table in a spelling.
fn table_len(pairs: &PairMap) -> usize {
    let mut total = 2usize;
    for (key, value) in pairs.iter() {
        total = total.saturating_add(5 + key.bytes().len());
        total = total.saturating_add(value.as_slice().len());
    }
    total
}

// The bytes of a kept request in a spelling.
fn kept_len(one: &Kept) -> usize {
    match one.reply {
        Reply::Done { ver: _ } => 19,
        Reply::Refused { at: _, why, ver: _ } => match why {
            Why::TooBig { limit: _, asked: _ } => 37,
            _ => 21,
        },
    }
}

/// The bytes of a state's spelling, which a store keeps in the buffer that is made for them.
pub(crate) fn state_len(state: &NameState) -> usize {
    let mut total = 19usize;
    for one in state.seen.as_slice() {
        total = total.saturating_add(kept_len(one));
    }
    if let Some(obj) = &state.obj {
        total = total.saturating_add(4);
        total = total.saturating_add(obj.body.as_slice().len());
        total = total.saturating_add(table_len(&obj.attrs));
        total = total.saturating_add(table_len(&obj.omap));
    }
    total
}
