//! Requests as they are written.
ghost use Rattle.std.specs.Prelude.{◌≡◌, ◌≤◌, ◌<◌, ◌++◌, All, IfOk, OnOk, length, None};
ghost use Rattle.obj_model.specs.Fields.{After, fields};
ghost use Rattle.obj_model.specs.SubOps.{payload};
ghost use Rattle.obj_model.specs.Vectors.{vector_fault};
ghost use Rattle.rec_codec.specs.Spelling.{field, field_bytes, ops_bytes, sub_op, tag, req_bytes, IsField, IsFit, IsReq, SpellsReq};
ghost use Rattle.req_codec.specs.Steps.{IsLight, IsFitReq};

use obj_model::{Name, NoMemory, Req, SubOp, Vector};
use rec_codec::put::{put_name, put_string, put_u16, put_u64};
use std::alloc::{AllocError, Global};

// The tag of a sub-operation.
fn tag_of(op: &SubOp) -> u8
    ensures { result ≡ tag op.now }
{
    match op {
        SubOp::Create => 1,
        SubOp::WriteFull { .. } => 2,
        SubOp::Write { .. } => 3,
        SubOp::Append { .. } => 4,
        SubOp::Zero { .. } => 5,
        SubOp::Truncate { .. } => 6,
        SubOp::Remove => 7,
        SubOp::SetXattr { .. } => 8,
        SubOp::RmXattr { .. } => 9,
        SubOp::OmapSet { .. } => 10,
        SubOp::OmapRm { .. } => 11,
        SubOp::OmapClear => 12,
        SubOp::AssertExists => 13,
        SubOp::AssertVer { .. } => 14,
        SubOp::CmpXattr { .. } => 15,
        SubOp::Read { .. } => 16,
        SubOp::Stat => 17,
        SubOp::GetXattr { .. } => 18,
        SubOp::ListXattrs => 19,
        SubOp::OmapGet { .. } => 20,
        SubOp::OmapList { .. } => 21,
    }
}

// The key that a listing goes on from, or that it has none.
fn put_after(out: &mut Vec<u8>, after: &Option<Name>) -> Result<(), AllocError>
    ensures put { OnOk result (out.new.items ≡ out.old.items ++ field (After after.now)) }
    ensures fit { OnOk result (IsField (After after.now)) }
{
    match after {
        None => out.push(0)?,
        Some(key) => {
            out.push(1)?;
            put_name(out, key)?;
        }
    }
    Ok(())
}

// The fields of a sub-operation.
fn put_fields(out: &mut Vec<u8>, op: &SubOp) -> Result<(), AllocError>
    requires { IsLight op.now }
    ensures put { OnOk result (out.new.items ≡ out.old.items ++ field_bytes (fields op.now)) }
    ensures fit { OnOk result (IsFit op.now) }
{
    match op {
        SubOp::Create
        | SubOp::Remove
        | SubOp::OmapClear
        | SubOp::AssertExists
        | SubOp::Stat
        | SubOp::ListXattrs => Ok(()),
        SubOp::WriteFull { bytes } | SubOp::Append { bytes } => put_string(out, bytes.as_slice()),
        SubOp::Truncate { size: number } | SubOp::AssertVer { ver: number } => {
            put_u64(out, *number)
        }
        SubOp::Write { off, bytes } => {
            put_u64(out, *off)?;
            put_string(out, bytes.as_slice())
        }
        SubOp::Zero { off, len } | SubOp::Read { off, len } => {
            put_u64(out, *off)?;
            put_u64(out, *len)
        }
        SubOp::SetXattr { key, bytes }
        | SubOp::OmapSet { key, bytes }
        | SubOp::CmpXattr { key, bytes } => {
            put_name(out, key)?;
            put_string(out, bytes.as_slice())
        }
        SubOp::RmXattr { key }
        | SubOp::OmapRm { key }
        | SubOp::GetXattr { key }
        | SubOp::OmapGet { key } => put_name(out, key),
        SubOp::OmapList { after, max } => {
            put_after(out, after)?;
            put_u64(out, *max)
        }
    }
}

// A sub-operation.
fn put_op(out: &mut Vec<u8>, op: &SubOp) -> Result<(), AllocError>
    requires { IsLight op.now }
    ensures put { OnOk result (out.new.items ≡ out.old.items ++ sub_op op.now) }
    ensures fit { OnOk result (IsFit op.now) }
{
    out.push(tag_of(op))?;
    put_fields(out, op)
}

// Sub-operations behind their number.
fn put_ops(out: &mut Vec<u8>, ops: &[SubOp]) -> Result<(), AllocError>
    requires few { length ops.now < 256 }
    requires light { All IsLight ops.now }
    ensures put { OnOk result (out.new.items ≡ out.old.items ++ ops_bytes ops.now) }
    ensures fit { OnOk result (All IsFit ops.now) }
{
    out.push(ops.len() as u8)?;
    for op in ops {
        put_op(out, op)?;
    }
    Ok(())
}

// Its sub-operations behind their number.
#[tactic(auto, using(crate::proofs::Vectors::vector_few, crate::proofs::Vectors::vector_light))]
fn put_vector(out: &mut Vec<u8>, vector: &Vector) -> Result<(), AllocError>
    ensures put { OnOk result (out.new.items ≡ out.old.items ++ ops_bytes vector.now) }
    ensures fit { OnOk result (All IsFit vector.now) }
    ensures lawful { vector_fault vector.now ≡ None }
{
    put_ops(out, vector.ops())
}

// The spelling, put behind what is there.
fn put_req(out: &mut Vec<u8>, req: &Req) -> Result<(), AllocError>
    ensures put { OnOk result (out.new.items ≡ out.old.items ++ req_bytes req.now) }
    ensures fit { OnOk result (IsFitReq req.now) }
{
    put_u16(out, req.client)?;
    put_u64(out, req.tid)?;
    put_name(out, &req.name)?;
    put_vector(out, &req.vector)?;
    Ok(())
}

/// The one spelling of a request, whose client and tid are within their limits.
pub fn write_req(alloc: Global, req: &Req) -> Result<Vec<u8>, NoMemory>
    requires { IsReq req.now }
    ensures { IfOk result (λ bytes. SpellsReq bytes.items req.now) }
{
    let mut out = Vec::with_capacity(alloc, req_len(req))?;
    put_req(&mut out, req)?;
    Ok(out)
}

// The bytes of a request's spelling, or a few more.
fn req_len(req: &Req) -> usize {
    let name = req.name.bytes().len();
    let ops = req.vector.ops().len().saturating_mul(24);
    let payload = req.vector.payload() as usize;
    name.saturating_add(12)
        .saturating_add(ops)
        .saturating_add(payload)
}
