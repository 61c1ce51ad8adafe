//! The blocks of records as they are read: numbers, bytes and names. Each stands at the front, and
//! the bytes after it are given with it.
//!
//! A length is compared with what is left before memory is taken.
ghost use Rattle.std.specs.Prelude.{◌≡◌, IfOk};
ghost use Rattle.rec_codec.specs.Reading.{Gives, number_at, taken_at, short_at, string_at, name_at};

use crate::fault::ReadError;
use byteorder::{BigEndian, ByteOrder};
use obj_model::{Bytes, Name};
use std::alloc::Global;

/// A byte at the front, and the bytes after it.
pub fn u8_at(bytes: &[u8]) -> Result<(u8, &[u8]), ReadError>
    ensures { Gives (λ x. (x.0, x.1.now)) result (number_at 1 bytes.now) }
{
    match bytes {
        [] => Err(ReadError::Wrong),
        [byte, rest @ ..] => Ok((*byte, rest)),
    }
}

/// A number of two bytes at the front, and the bytes after it.
pub fn u16_at(bytes: &[u8]) -> Result<(u16, &[u8]), ReadError>
    ensures { Gives (λ x. (x.0, x.1.now)) result (number_at 2 bytes.now) }
{
    if bytes.len() < 2 {
        return Err(ReadError::Wrong);
    }
    Ok((BigEndian::read_u16(bytes), &bytes[2..]))
}

/// A number of four bytes at the front, and the bytes after it.
pub fn u32_at(bytes: &[u8]) -> Result<(u32, &[u8]), ReadError>
    ensures { Gives (λ x. (x.0, x.1.now)) result (number_at 4 bytes.now) }
{
    if bytes.len() < 4 {
        return Err(ReadError::Wrong);
    }
    Ok((BigEndian::read_u32(bytes), &bytes[4..]))
}

/// A number of eight bytes at the front, and the bytes after it.
pub fn u64_at(bytes: &[u8]) -> Result<(u64, &[u8]), ReadError>
    ensures { Gives (λ x. (x.0, x.1.now)) result (number_at 8 bytes.now) }
{
    if bytes.len() < 8 {
        return Err(ReadError::Wrong);
    }
    Ok((BigEndian::read_u64(bytes), &bytes[8..]))
}

/// So many bytes at the front, and the bytes after them.
pub fn taken_at(bytes: &[u8], len: usize) -> Result<(&[u8], &[u8]), ReadError>
    ensures { Gives (λ x. (x.0.now, x.1.now)) result (taken_at len bytes.now) }
{
    if bytes.len() < len {
        return Err(ReadError::Wrong);
    }
    Ok(bytes.split_at(len))
}

/// The bytes behind a length of one byte.
#[tactic(auto, unfolding(crate::specs::Reading::short_at))]
pub fn short_at(bytes: &[u8]) -> Result<(&[u8], &[u8]), ReadError>
    ensures { Gives (λ x. (x.0.now, x.1.now)) result (short_at bytes.now) }
{
    let (len, rest) = u8_at(bytes)?;
    taken_at(rest, len as usize)
}

/// At most so many bytes behind a length of four bytes.
#[tactic(auto, unfolding(crate::specs::Reading::string_at))]
pub fn slice_at(bytes: &[u8], most: u32) -> Result<(&[u8], &[u8]), ReadError>
    ensures { Gives (λ x. (x.0.now, x.1.now)) result (string_at most bytes.now) }
{
    let (len, rest) = u32_at(bytes)?;
    if len > most {
        return Err(ReadError::Wrong);
    }
    taken_at(rest, len as usize)
}

/// A copy of at most so many bytes behind a length of four bytes.
pub fn bytes_at(alloc: Global, bytes: &[u8], most: u32) -> Result<(Bytes, &[u8]), ReadError>
    ensures { Gives (λ x. (x.0, x.1.now)) result (string_at most bytes.now) }
{
    let (text, rest) = slice_at(bytes, most)?;
    Ok((Bytes::from_vec(Vec::from_slice(alloc, text)?), rest))
}

/// A name at the front, behind its bytes where they stand.
#[tactic(auto, unfolding(crate::specs::Reading::name_at))]
pub fn name_at(alloc: Global, bytes: &[u8]) -> Result<(&[u8], Name, &[u8]), ReadError>
    ensures given { Gives (λ x. (x.1, x.2.now)) result (name_at bytes.now) }
    ensures text { IfOk result (λ x. x.0.now ≡ x.1) }
{
    let (text, rest) = short_at(bytes)?;
    match Name::new(Vec::from_slice(alloc, text)?) {
        Ok(name) => Ok((text, name, rest)),
        Err(_) => Err(ReadError::Wrong),
    }
}
