//! What the tables of spellings share: bytes as hexadecimal digits, and whether they spell a value
//! that is written as the same bytes.
use crate::tools::{given, holds, number, words};
use obj_model::NoMemory;
use rec_codec::{read_state, read_tier, read_txn, write_state, write_tier, write_txn};
use req_codec::{read_req, write_req};
use std::alloc::Global;
use std::process::Abort;
use std::test::Fail;

// What bytes are read as.
#[derive(Clone, Copy)]
pub enum Kind {
    State,
    Tier,
    Req,
    Txn,
}

// Adds the byte of a pair of digits, of which the first is kept until the second comes.
fn put_digit(bytes: &mut Vec<u8>, high: Option<u8>, digit: u8) -> Result<Option<u8>, Fail> {
    match high {
        None => Ok(Some(digit)),
        Some(first) => {
            bytes.push((first << 4) | digit)?;
            Ok(None)
        }
    }
}

// The bytes of pairs of digits; what stands between them counts for nothing.
pub fn hex(alloc: Global, text: &str) -> Result<Vec<u8>, Fail> {
    let mut bytes = Vec::new(alloc);
    let mut high = None;
    for letter in text.chars() {
        if let Some(digit) = letter.to_digit(16) {
            high = put_digit(&mut bytes, high, digit as u8)?;
        }
    }
    Ok(bytes)
}

// So many bytes, all of them this one.
pub fn put_all(bytes: &mut Vec<u8>, byte: u8, count: u64) -> Result<(), Fail> {
    for _ in 0..count {
        bytes.push(byte)?;
    }
    Ok(())
}

fn is_state(alloc: Global, bytes: &[u8]) -> Result<bool, NoMemory> {
    match read_state(alloc, bytes)? {
        None => Ok(false),
        Some(state) => Ok(write_state(alloc, &state)?.as_slice() == bytes),
    }
}

fn is_tier(alloc: Global, bytes: &[u8]) -> Result<bool, NoMemory> {
    match read_tier(alloc, bytes)? {
        None => Ok(false),
        Some((state, dirty, mtime)) => {
            Ok(write_tier(alloc, &state, dirty, mtime)?.as_slice() == bytes)
        }
    }
}

fn is_req(alloc: Global, bytes: &[u8]) -> Result<bool, NoMemory> {
    match read_req(alloc, bytes)? {
        None => Ok(false),
        Some(req) => Ok(write_req(alloc, &req)?.as_slice() == bytes),
    }
}

fn is_txn(alloc: Global, bytes: &[u8]) -> Result<bool, NoMemory> {
    match read_txn(alloc, bytes)? {
        None => Ok(false),
        Some(changes) => Ok(write_txn(alloc, changes.as_slice())?.as_slice() == bytes),
    }
}

// Whether the bytes spell a value, which is then written as the same bytes.
pub fn spells(alloc: Global, kind: Kind, bytes: &[u8]) -> Result<bool, Fail> {
    let verdict = match kind {
        Kind::State => is_state(alloc, bytes),
        Kind::Tier => is_tier(alloc, bytes),
        Kind::Req => is_req(alloc, bytes),
        Kind::Txn => is_txn(alloc, bytes),
    };
    given(verdict, "memory")
}

// None of the beginnings of these bytes spells a value.
fn no_part_spells(rt: &impl Abort, alloc: Global, kind: Kind, bytes: &[u8]) -> Result<(), Fail> {
    for len in 0..bytes.len() {
        let part = spells(alloc, kind, &bytes[..len])?;
        holds(rt, "a beginning spells nothing", !part);
    }
    Ok(())
}

// Whether these bytes with one byte more spell a value.
fn longer_spells(alloc: Global, kind: Kind, bytes: &[u8]) -> Result<bool, Fail> {
    let mut longer = Vec::from_slice(alloc, bytes)?;
    longer.push(0)?;
    spells(alloc, kind, longer.as_slice())
}

// The bytes spell a value; none of their beginnings does, and nor do they with one byte more.
pub fn is_whole(rt: &impl Abort, alloc: Global, kind: Kind, bytes: &[u8]) -> Result<(), Fail> {
    holds(rt, "bytes that spell", spells(alloc, kind, bytes)?);
    let longer = longer_spells(alloc, kind, bytes)?;
    holds(rt, "a byte more spells nothing", !longer);
    no_part_spells(rt, alloc, kind, bytes)
}

// The same of bytes in digits.
pub fn text_is_whole(rt: &impl Abort, alloc: Global, kind: Kind, text: &str) -> Result<(), Fail> {
    is_whole(rt, alloc, kind, hex(alloc, text)?.as_slice())
}

// One row of bytes, with y in front where they spell a value and n where not; what stands behind a
// comma says why.
fn row_holds(rt: &impl Abort, alloc: Global, kind: Kind, row: &str) -> Result<(), Fail> {
    let (verdict, text) = words(row);
    let text = text.split_once(',').unwrap_or((text, "")).0;
    let found = spells(alloc, kind, hex(alloc, text)?.as_slice())?;
    holds(rt, row, found == (verdict == "y"));
    Ok(())
}

// Such rows.
pub fn rows_hold(rt: &impl Abort, alloc: Global, kind: Kind, rows: &str) -> Result<(), Fail> {
    for row in rows.lines() {
        row_holds(rt, alloc, kind, row)?;
    }
    Ok(())
}

// A byte in decimal digits.
fn byte(word: &str) -> Result<u8, Fail> {
    given(word.parse::<u8>(), "a byte")
}

// Whether a value spells one with this byte at this place.
pub fn changed_spells(
    alloc: Global,
    kind: Kind,
    value: &[u8],
    place: usize,
    byte: u8,
) -> Result<bool, Fail> {
    let mut bytes = Vec::from_slice(alloc, value)?;
    if place < bytes.len() {
        bytes[place] = byte;
    }
    spells(alloc, kind, bytes.as_slice())
}

// A row of a place and a byte that stands there in place of the value's own, with y where that
// spells a value and n where not, and what it would say.
fn change_holds(
    rt: &impl Abort,
    alloc: Global,
    kind: Kind,
    value: &[u8],
    row: &str,
) -> Result<(), Fail> {
    let (place, rest) = words(row);
    let (new, rest) = words(rest);
    let found = changed_spells(alloc, kind, value, number(place)? as usize, byte(new)?)?;
    holds(rt, row, found == rest.starts_with('y'));
    Ok(())
}

// Such rows about the value that these digits are.
pub fn changes_hold(
    rt: &impl Abort,
    alloc: Global,
    kind: Kind,
    value: &str,
    rows: &str,
) -> Result<(), Fail> {
    let value = hex(alloc, value)?;
    for row in rows.lines() {
        change_holds(rt, alloc, kind, value.as_slice(), row)?;
    }
    Ok(())
}
