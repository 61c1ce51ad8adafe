//! Sub-operations and vectors of a line.
ghost use Rattle.std.specs.Prelude.{◌≡◌};
ghost use Rattle.std.specs.Option.{option_copied};
ghost use Rattle.script_lang.specs.Outcomes.{Takes, IsParse};
ghost use Rattle.script_lang.specs.Reading.{after_at, bytes_at, if_vector, name_at, number_at, op_at, op_from, op_of, ops_of, rest_of, vector_of};
ghost use Rattle.obj_model.specs.Vectors.{vector_fault};

use crate::cause::{Cause, LineFault};
use crate::fields::{after_in, bytes_in, name_in, number_in};
use crate::left_out::unknown;
use crate::verbs::OpVerb;
use crate::words::Words;
use obj_model::{BadVector, Bytes, Name, OpList, SubOp, Vector};
use std::alloc::Global;

/// All words that are left, as the vector of a request, which writes, or of a reading, which does
/// not.
#[tactic(auto, unfolding(crate::specs::Reading::vector_of))]
pub(crate) fn read_vector(
    alloc: Global,
    writes: bool,
    words: &mut Words,
) -> Result<Vector, LineFault>
    ensures { IsParse result (vector_of writes words.old) }
{
    let ops = read_ops(alloc, words)?;
    let vector = as_vector(ops)?;
    if vector.writes() != writes {
        return Err(LineFault::Wrong(Cause::Mixed(0)));
    }
    Ok(vector)
}

// Sub-operations as a vector, if nothing is wrong with them as a whole.
fn as_vector(ops: OpList) -> Result<Vector, LineFault>
    ensures { IsParse result (if_vector (vector_fault ops) ops) }
{
    match Vector::new(ops.into_vec()) {
        Ok(vector) => Ok(vector),
        Err(BadVector::Empty) => Err(LineFault::Wrong(Cause::Words)),
        Err(BadVector::TooMany(_)) => Err(LineFault::Wrong(Cause::Many)),
        Err(BadVector::Far(_)) => Err(LineFault::Wrong(Cause::Number)),
        Err(BadVector::Mixed(place)) => Err(LineFault::Wrong(Cause::Mixed(place))),
        Err(BadVector::Heavy(_)) => Err(LineFault::Wrong(Cause::Heavy)),
    }
}

// All words that are left, as sub-operations with a semicolon between two.
fn read_ops(alloc: Global, words: &mut Words) -> Result<OpList, LineFault>
    ensures { IsParse result (ops_of words.old) }
{
    let mut ops = OpList::new(alloc);
    loop {
        let op = read_op(alloc, words)?;
        if ops.push(op).is_err() {
            return Err(LineFault::NoMemory);
        }
        match words.next() {
            None => return Ok(ops),
            Some(word) if word == b";".as_slice() => {}
            Some(_) => return Err(LineFault::Wrong(Cause::Words)),
        }
    }
}

// The sub-operation that the next words are.
fn read_op(alloc: Global, words: &mut Words) -> Result<SubOp, LineFault>
    ensures { Takes result (op_at words.old) words.new }
{
    match words.word() {
        Some(word) => read_op_from(alloc, word, words),
        None => Err(LineFault::Wrong(Cause::Words)),
    }
}

// The sub-operation that begins with this word, whose fields are the next words.
fn read_op_from(alloc: Global, word: &[u8], words: &mut Words) -> Result<SubOp, LineFault>
    ensures { Takes result (op_from words.old word.now) words.new }
{
    match OpVerb::of(word) {
        Some(verb) => read_op_of(alloc, verb, words),
        None => Err(unknown(alloc, word, Cause::Subop)),
    }
}

// The next word as a number.
fn number(words: &mut Words) -> Result<u64, LineFault>
    ensures value { IsParse result (number_at words.old) }
    ensures rest { words.new ≡ rest_of words.old }
{
    number_in(words.field())
}

// The next word as bytes.
fn bytes(alloc: Global, words: &mut Words) -> Result<Bytes, LineFault>
    ensures value { IsParse result (bytes_at words.old) }
    ensures rest { words.new ≡ rest_of words.old }
{
    bytes_in(alloc, words.field())
}

// The next word as a key.
fn key(alloc: Global, words: &mut Words) -> Result<Name, LineFault>
    ensures value { IsParse result (name_at words.old) }
    ensures rest { words.new ≡ rest_of words.old }
{
    name_in(alloc, words.field())
}

// The next word as the key to go on from, or none.
fn after(alloc: Global, words: &mut Words) -> Result<Option<Name>, LineFault>
    ensures value { IsParse result (after_at words.old) }
    ensures rest { words.new ≡ rest_of words.old }
{
    after_in(alloc, words.field())
}

// The sub-operation of this verb, whose fields are the next words.
fn read_op_of(alloc: Global, verb: OpVerb, words: &mut Words) -> Result<SubOp, LineFault>
    ensures { Takes result (op_of verb words.old) words.new }
{
    match verb {
        OpVerb::Create => Ok(SubOp::Create),
        OpVerb::WriteFull => {
            let bytes = bytes(alloc, words)?;
            Ok(SubOp::WriteFull { bytes })
        }
        OpVerb::Write => {
            let off = number(words)?;
            let bytes = bytes(alloc, words)?;
            Ok(SubOp::Write { off, bytes })
        }
        OpVerb::Append => {
            let bytes = bytes(alloc, words)?;
            Ok(SubOp::Append { bytes })
        }
        OpVerb::Zero => {
            let off = number(words)?;
            let len = number(words)?;
            Ok(SubOp::Zero { off, len })
        }
        OpVerb::Truncate => {
            let size = number(words)?;
            Ok(SubOp::Truncate { size })
        }
        OpVerb::Remove => Ok(SubOp::Remove),
        OpVerb::SetXattr => {
            let key = key(alloc, words)?;
            let bytes = bytes(alloc, words)?;
            Ok(SubOp::SetXattr { key, bytes })
        }
        OpVerb::RmXattr => {
            let key = key(alloc, words)?;
            Ok(SubOp::RmXattr { key })
        }
        OpVerb::OmapSet => {
            let key = key(alloc, words)?;
            let bytes = bytes(alloc, words)?;
            Ok(SubOp::OmapSet { key, bytes })
        }
        OpVerb::OmapRm => {
            let key = key(alloc, words)?;
            Ok(SubOp::OmapRm { key })
        }
        OpVerb::OmapClear => Ok(SubOp::OmapClear),
        OpVerb::AssertExists => Ok(SubOp::AssertExists),
        OpVerb::AssertVer => {
            let ver = number(words)?;
            Ok(SubOp::AssertVer { ver })
        }
        OpVerb::CmpXattr => {
            let key = key(alloc, words)?;
            let bytes = bytes(alloc, words)?;
            Ok(SubOp::CmpXattr { key, bytes })
        }
        OpVerb::Read => {
            let off = number(words)?;
            let len = number(words)?;
            Ok(SubOp::Read { off, len })
        }
        OpVerb::Stat => Ok(SubOp::Stat),
        OpVerb::GetXattr => {
            let key = key(alloc, words)?;
            Ok(SubOp::GetXattr { key })
        }
        OpVerb::ListXattrs => Ok(SubOp::ListXattrs),
        OpVerb::OmapGet => {
            let key = key(alloc, words)?;
            Ok(SubOp::OmapGet { key })
        }
        OpVerb::OmapList => {
            let after = after(alloc, words)?;
            let max = number(words)?;
            Ok(SubOp::OmapList { after, max })
        }
    }
}
