//! Sub-operations as they are read: a tag, and behind it its fields.
ghost use Rattle.std.specs.Prelude.{◌≡◌};
ghost use Rattle.rec_codec.specs.Reading.{Gives, name_at};
ghost use Rattle.req_codec.specs.Reading.{text_at, after_at, among, body_rows, table_rows, guard_rows, read_rows, op_at};

use obj_model::{Bytes, Name, PAYLOAD_LIMIT, SubOp};
use rec_codec::ReadError;
use rec_codec::blocks::{bytes_at, name_at, u8_at, u64_at};
use std::alloc::Global;

// Bytes that a sub-operation carries: no more than its vector may.
fn text_at(alloc: Global, bytes: &[u8]) -> Result<(Bytes, &[u8]), ReadError>
    ensures { Gives (λ x. (x.0, x.1.now)) result (text_at bytes.now) }
{
    bytes_at(alloc, bytes, PAYLOAD_LIMIT as u32)
}

/// A name at the front, and the bytes after it.
pub(crate) fn key_at(alloc: Global, bytes: &[u8]) -> Result<(Name, &[u8]), ReadError>
    ensures { Gives (λ x. (x.0, x.1.now)) result (name_at bytes.now) }
{
    let (_, key, rest) = name_at(alloc, bytes)?;
    Ok((key, rest))
}

// The key that a listing goes on from, or that it has none.
#[tactic(auto, unfolding(crate::specs::Reading::after_at))]
fn after_at(alloc: Global, bytes: &[u8]) -> Result<(Option<Name>, &[u8]), ReadError>
    ensures { Gives (λ x. (x.0, x.1.now)) result (after_at bytes.now) }
{
    let (tag, rest) = u8_at(bytes)?;
    match tag {
        0 => Ok((None, rest)),
        1 => {
            let (key, rest) = key_at(alloc, rest)?;
            Ok((Some(key), rest))
        }
        _ => Err(ReadError::Wrong),
    }
}

// What stands behind the tag of a change of the object or its body.
fn body_op_at(alloc: Global, tag: u8, bytes: &[u8]) -> Result<(SubOp, &[u8]), ReadError>
    ensures { Gives (λ x. (x.0, x.1.now)) result (among body_rows tag bytes.now) }
{
    match tag {
        1 => Ok((SubOp::Create, bytes)),
        2 => {
            let (bytes, rest) = text_at(alloc, bytes)?;
            Ok((SubOp::WriteFull { bytes }, rest))
        }
        3 => {
            let (off, rest) = u64_at(bytes)?;
            let (bytes, rest) = text_at(alloc, rest)?;
            Ok((SubOp::Write { off, bytes }, rest))
        }
        4 => {
            let (bytes, rest) = text_at(alloc, bytes)?;
            Ok((SubOp::Append { bytes }, rest))
        }
        5 => {
            let (off, rest) = u64_at(bytes)?;
            let (len, rest) = u64_at(rest)?;
            Ok((SubOp::Zero { off, len }, rest))
        }
        6 => {
            let (size, rest) = u64_at(bytes)?;
            Ok((SubOp::Truncate { size }, rest))
        }
        7 => Ok((SubOp::Remove, bytes)),
        _ => Err(ReadError::Wrong),
    }
}

// What stands behind the tag of a change of a table.
fn table_op_at(alloc: Global, tag: u8, bytes: &[u8]) -> Result<(SubOp, &[u8]), ReadError>
    ensures { Gives (λ x. (x.0, x.1.now)) result (among table_rows tag bytes.now) }
{
    match tag {
        8 => {
            let (key, rest) = key_at(alloc, bytes)?;
            let (bytes, rest) = text_at(alloc, rest)?;
            Ok((SubOp::SetXattr { key, bytes }, rest))
        }
        9 => {
            let (key, rest) = key_at(alloc, bytes)?;
            Ok((SubOp::RmXattr { key }, rest))
        }
        10 => {
            let (key, rest) = key_at(alloc, bytes)?;
            let (bytes, rest) = text_at(alloc, rest)?;
            Ok((SubOp::OmapSet { key, bytes }, rest))
        }
        11 => {
            let (key, rest) = key_at(alloc, bytes)?;
            Ok((SubOp::OmapRm { key }, rest))
        }
        12 => Ok((SubOp::OmapClear, bytes)),
        _ => Err(ReadError::Wrong),
    }
}

// What stands behind the tag of a guard.
fn guard_at(alloc: Global, tag: u8, bytes: &[u8]) -> Result<(SubOp, &[u8]), ReadError>
    ensures { Gives (λ x. (x.0, x.1.now)) result (among guard_rows tag bytes.now) }
{
    match tag {
        13 => Ok((SubOp::AssertExists, bytes)),
        14 => {
            let (ver, rest) = u64_at(bytes)?;
            Ok((SubOp::AssertVer { ver }, rest))
        }
        15 => {
            let (key, rest) = key_at(alloc, bytes)?;
            let (bytes, rest) = text_at(alloc, rest)?;
            Ok((SubOp::CmpXattr { key, bytes }, rest))
        }
        _ => Err(ReadError::Wrong),
    }
}

// What stands behind the tag of a reading.
fn read_op_at(alloc: Global, tag: u8, bytes: &[u8]) -> Result<(SubOp, &[u8]), ReadError>
    ensures { Gives (λ x. (x.0, x.1.now)) result (among read_rows tag bytes.now) }
{
    match tag {
        16 => {
            let (off, rest) = u64_at(bytes)?;
            let (len, rest) = u64_at(rest)?;
            Ok((SubOp::Read { off, len }, rest))
        }
        17 => Ok((SubOp::Stat, bytes)),
        18 => {
            let (key, rest) = key_at(alloc, bytes)?;
            Ok((SubOp::GetXattr { key }, rest))
        }
        19 => Ok((SubOp::ListXattrs, bytes)),
        20 => {
            let (key, rest) = key_at(alloc, bytes)?;
            Ok((SubOp::OmapGet { key }, rest))
        }
        21 => {
            let (after, rest) = after_at(alloc, bytes)?;
            let (max, rest) = u64_at(rest)?;
            Ok((SubOp::OmapList { after, max }, rest))
        }
        _ => Err(ReadError::Wrong),
    }
}

/// A sub-operation at the front, and the bytes after it.
#[tactic(auto, unfolding(crate::specs::Reading::op_at))]
pub(crate) fn op_at(alloc: Global, bytes: &[u8]) -> Result<(SubOp, &[u8]), ReadError>
    ensures { Gives (λ x. (x.0, x.1.now)) result (op_at bytes.now) }
{
    let (tag, rest) = u8_at(bytes)?;
    if tag <= 7 {
        body_op_at(alloc, tag, rest)
    } else if tag <= 12 {
        table_op_at(alloc, tag, rest)
    } else if tag <= 15 {
        guard_at(alloc, tag, rest)
    } else {
        read_op_at(alloc, tag, rest)
    }
}
