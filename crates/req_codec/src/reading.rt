//! Requests as they are read.
//!
//! Bytes that are no whole request give nothing. No memory is taken that the bytes do not fill, and
//! nothing is read twice.
ghost use Rattle.std.specs.Prelude.{◌≡◌, Some, IfOk, IfSome, IfNone};
ghost use Rattle.obj_model.specs.declared.req.Req.{Req};
ghost use Rattle.rec_codec.specs.Spelling.{SpellsReq};
ghost use Rattle.rec_codec.specs.Reading.{Gives, whole};
ghost use Rattle.req_codec.specs.Reading.{ops_at, vector_at, req_at};

use crate::ops::{key_at, op_at};
use obj_model::{CLIENT_LIMIT, NUMBER_LIMIT, NoMemory, Req, SubOp, Vector};
use rec_codec::ReadError;
use rec_codec::blocks::{u8_at, u16_at, u64_at};
use std::alloc::Global;

// So many sub-operations.
fn ops_at(alloc: Global, count: u8, bytes: &[u8]) -> Result<(Vec<SubOp>, &[u8]), ReadError>
    ensures { Gives (λ x. (x.0.items, x.1.now)) result (ops_at count bytes.now) }
{
    let mut list = Vec::new(alloc);
    let mut rest = bytes;
    for _ in 0..count {
        let (op, after) = op_at(alloc, rest)?;
        list.push(op)?;
        rest = after;
    }
    Ok((list, rest))
}

// Sub-operations behind their number, which are a vector.
#[tactic(auto, unfolding(crate::specs::Reading::vector_at))]
fn vector_at(alloc: Global, bytes: &[u8]) -> Result<(Vector, &[u8]), ReadError>
    ensures { Gives (λ x. (x.0, x.1.now)) result (vector_at bytes.now) }
{
    let (count, rest) = u8_at(bytes)?;
    let (ops, rest) = ops_at(alloc, count, rest)?;
    match Vector::new(ops) {
        Ok(vector) => Ok((vector, rest)),
        Err(_) => Err(ReadError::Wrong),
    }
}

// A request.
#[tactic(auto, unfolding(crate::specs::Reading::req_at))]
fn req_at(alloc: Global, bytes: &[u8]) -> Result<(Req, &[u8]), ReadError>
    ensures { Gives (λ x. (x.0, x.1.now)) result (req_at bytes.now) }
{
    let (client, rest) = u16_at(bytes)?;
    if client < 1 || client > CLIENT_LIMIT {
        return Err(ReadError::Wrong);
    }
    let (tid, rest) = u64_at(rest)?;
    if tid > NUMBER_LIMIT {
        return Err(ReadError::Wrong);
    }
    let (name, rest) = key_at(alloc, rest)?;
    let (vector, rest) = vector_at(alloc, rest)?;
    let req = Req {
        client,
        tid,
        name,
        vector,
    };
    Ok((req, rest))
}

// The request that all of the bytes are.
fn whole_req(alloc: Global, bytes: &[u8]) -> Result<Req, ReadError>
    ensures { Gives (λ r. r) result (whole req_at bytes.now) }
{
    let (req, rest) = req_at(alloc, bytes)?;
    if !rest.is_empty() {
        return Err(ReadError::Wrong);
    }
    Ok(req)
}

// The same, where nothing is no error.
fn req_or_none(alloc: Global, bytes: &[u8]) -> Result<Option<Req>, NoMemory>
    ensures { IfOk result (λ o. o ≡ whole req_at bytes.now) }
{
    match whole_req(alloc, bytes) {
        Ok(req) => Ok(Some(req)),
        Err(ReadError::Wrong) => Ok(None),
        Err(ReadError::Memory) => Err(NoMemory),
    }
}

/// The request that the bytes, all of them, spell, or nothing where they spell none. It takes no
/// more memory than a small multiple of the bytes, whatever they are; an error is want of memory.
pub fn read_req(alloc: Global, bytes: &[u8]) -> Result<Option<Req>, NoMemory>
    // What is read is spelled so.
    ensures found { IfOk result (λ o. IfSome o (λ r. SpellsReq bytes.now r)) }
    // What is spelled so is read.
    ensures only { (r : Req) → SpellsReq bytes.now r → IfOk result (λ o. o ≡ Some r) }
    // Nothing is read only where nothing is spelled.
    ensures none { IfOk result (λ o. IfNone o ((r : Req) → SpellsReq bytes.now r → ⊥)) }
{
    req_or_none(alloc, bytes)
}
