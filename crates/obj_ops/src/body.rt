//! The sub-operations on the body of an object, each of which changes it where it lies. A refused
//! one,
//! and one without memory, leaves the object as it was.
ghost use Rattle.std.specs.Prelude.{◌≡◌, ◌≤◌, ◌+◌, ◌++◌, IfOk, OnOk, OnErr, Ok, Some, length};
ghost use Rattle.std.specs.Prelude.{replicate};
ghost use Rattle.std.specs.Prelude.{vec_capacity};
ghost use Rattle.obj_model.specs.Limits.{body_limit, number_limit};
ghost use Rattle.obj_ops.specs.Effects.{resized, with_body, with_bytes, with_more, with_size};
ghost use Rattle.obj_ops.specs.Effects.{with_zeros, written, zeroed};
ghost use Rattle.obj_ops.specs.Steps.{Lands};

use crate::object::{Done, too_big};
use obj_model::{BODY_LIMIT, Bytes, NoMemory, Obj};
use std::alloc::Global;
use std::mem;

// Takes the body out, and leaves an empty one.
fn taken(alloc: Global, obj: &mut Obj) -> Vec<u8>
    ensures taken { result.items ≡ obj.old.body }
    ensures attrs { obj.new.attrs ≡ obj.old.attrs }
    ensures omap { obj.new.omap ≡ obj.old.omap }
{
    mem::replace(&mut obj.body, Bytes::from_vec(Vec::new(alloc))).into_vec()
}

// Gives the object this body.
pub fn write_full(alloc: Global, bytes: &Bytes, obj: &mut Obj) -> Result<Done, NoMemory>
    ensures exact { IfOk result (λ done. Lands (with_body bytes.now obj.old) obj.old done obj.new) }
    ensures refused { OnErr result (obj.new ≡ obj.old) }
{
    let bytes = bytes.as_slice();
    let asked = bytes.len() as u64;
    if asked > BODY_LIMIT {
        return Ok(Err(too_big(BODY_LIMIT, asked)));
    }
    let body = Vec::from_slice(alloc, bytes)?;
    obj.body = Bytes::from_vec(body);
    Ok(Ok(()))
}

// Puts the bytes into the body.
pub fn write(alloc: Global, off: u64, bytes: &Bytes, obj: &mut Obj) -> Result<Done, NoMemory>
    requires { off ≤ number_limit }
    ensures exact { IfOk result
        (λ done. Lands (with_bytes off bytes.now obj.old) obj.old done obj.new) }
    ensures refused { OnErr result (obj.new ≡ obj.old) }
{
    let bytes = bytes.as_slice();
    let asked = off + bytes.len() as u64;
    if asked > BODY_LIMIT {
        return Ok(Err(too_big(BODY_LIMIT, asked)));
    }
    let mut body = taken(alloc, obj);
    let done = overwrite(&mut body, off as usize, bytes);
    obj.body = Bytes::from_vec(body);
    match done {
        Ok(()) => Ok(Ok(())),
        Err(_) => Err(NoMemory),
    }
}

// Puts these bytes at `off`. Only they, and a gap before them, are touched.
fn overwrite(body: &mut Vec<u8>, off: usize, bytes: &[u8]) -> Result<(), NoMemory>
    requires { off + length bytes.now ≤ body_limit }
    ensures put { OnOk result (body.new.items ≡ written off bytes.now body.old.items) }
    ensures refused { OnErr result (body.new.items ≡ body.old.items) }
{
    if bytes.is_empty() {
        return Ok(());
    }
    let end = off + bytes.len();
    if end <= body.len() {
        body.as_mut_slice()[off..end].copy_from_slice(bytes);
        return Ok(());
    }
    body.reserve(end - body.len())?;
    resize(body, off);
    extend(body, bytes);
    Ok(())
}

// Gives a body this size, for which it has room.
fn resize(body: &mut Vec<u8>, size: usize)
    requires { size ≤ vec_capacity body.old }
    ensures resized { body.new.items ≡ resized size body.old.items }
    ensures room { vec_capacity body.old ≤ vec_capacity body.new }
{
    let _ = body.resize(size, 0);
}

// Puts bytes behind a body which has room for them.
fn extend(body: &mut Vec<u8>, bytes: &[u8])
    requires { length body.old.items + length bytes.now ≤ vec_capacity body.old }
    ensures { body.new.items ≡ body.old.items ++ bytes.now }
{
    let _ = body.extend_from_slice(bytes);
}

// Puts the bytes behind the body.
pub fn append(alloc: Global, bytes: &Bytes, obj: &mut Obj) -> Result<Done, NoMemory>
    ensures exact { IfOk result (λ done. Lands (with_more bytes.now obj.old) obj.old done obj.new) }
    ensures refused { OnErr result (obj.new ≡ obj.old) }
{
    let bytes = bytes.as_slice();
    let asked = obj.body.as_slice().len() as u64 + bytes.len() as u64;
    if asked > BODY_LIMIT {
        return Ok(Err(too_big(BODY_LIMIT, asked)));
    }
    let mut body = taken(alloc, obj);
    let done = body.extend_from_slice(bytes);
    obj.body = Bytes::from_vec(body);
    match done {
        Ok(()) => Ok(Ok(())),
        Err(_) => Err(NoMemory),
    }
}

// Makes a part of the body zero.
pub fn zero(alloc: Global, off: u64, len: u64, obj: &mut Obj)
    ensures { with_zeros off len obj.old ≡ Ok (Some obj.new) }
{
    let body = taken(alloc, obj);
    obj.body = Bytes::from_vec(clear(body, off, len));
}

// The body with zeros from `off` to `off + len`, as far as it goes.
fn clear(body: Vec<u8>, off: u64, len: u64) -> Vec<u8>
    ensures { result.items ≡ zeroed off len body.items }
{
    let mut body = body;
    let size = body.len() as u64;
    let from = off.min(size);
    let to = from + len.min(size - from);
    fill(&mut body.as_mut_slice()[from as usize..to as usize]);
    body
}

// Makes all bytes zero.
fn fill(bytes: &mut [u8])
    ensures { bytes.new ≡ replicate (length bytes.old) 0 }
{
    bytes.fill(0);
}

// Cuts the body to a size or fills it up with zeros.
pub fn truncate(alloc: Global, size: u64, obj: &mut Obj) -> Result<Done, NoMemory>
    ensures exact { IfOk result (λ done. Lands (with_size size obj.old) obj.old done obj.new) }
    ensures refused { OnErr result (obj.new ≡ obj.old) }
{
    if size > BODY_LIMIT {
        return Ok(Err(too_big(BODY_LIMIT, size)));
    }
    let mut body = taken(alloc, obj);
    let done = body.resize(size as usize, 0);
    obj.body = Bytes::from_vec(body);
    match done {
        Ok(()) => Ok(Ok(())),
        Err(_) => Err(NoMemory),
    }
}
