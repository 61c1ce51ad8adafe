//! Sub-operations as words, each behind a space: the verb, and the fields by their shape.
ghost use Rattle.std.specs.Prelude.{◌≡◌, ◌++◌, OnOk, codes, decimal, map};
ghost use Rattle.script_lang.specs.Printing.{all_spaced, op_text, ops_text, spaced};
ghost use Rattle.obj_model.specs.Fields.{After, fields};
ghost use Rattle.script_lang.specs.Spelling.{bytes_word, field_word};
ghost use Rattle.script_lang.specs.Verbs.{verb_of};

use crate::Text;
use crate::verbs::OpVerb;
use obj_model::{Bytes, Name, NoMemory, SubOp};

/// Puts sub-operations behind a text, with a semicolon between two.
pub(crate) fn put_ops(text: &mut Text, ops: &[SubOp]) -> Result<(), NoMemory>
    ensures { OnOk result (text.new ≡ text.old ++ ops_text ops.now) }
{
    let Some((first, others)) = ops.split_first() else {
        return Ok(());
    };
    put_op(text, first)?;
    for op in others {
        text.push(" ;")?;
        put_op(text, op)?;
    }
    Ok(())
}

/// Puts a number behind a text.
pub(crate) fn put_number(text: &mut Text, number: u64) -> Result<(), NoMemory>
    ensures { OnOk result (text.new ≡ text.old ++ spaced (decimal number)) }
{
    text.push(" ")?;
    text.push_number(number)
}

/// Puts a name behind a text.
pub(crate) fn put_name(text: &mut Text, name: &Name) -> Result<(), NoMemory>
    ensures { OnOk result (text.new ≡ text.old ++ spaced name.now) }
{
    text.push(" ")?;
    text.push_bytes(name.bytes())
}

// Puts a sub-operation.
fn put_op(text: &mut Text, op: &SubOp) -> Result<(), NoMemory>
    ensures { OnOk result (text.new ≡ text.old ++ op_text op.now) }
{
    text.push(" ")?;
    text.push(verb_of(op).word())?;
    put_fields(text, op)
}

// Puts the fields of a sub-operation.
fn put_fields(text: &mut Text, op: &SubOp) -> Result<(), NoMemory>
    ensures { OnOk result (text.new ≡ text.old ++ all_spaced (map field_word (fields op.now))) }
{
    match op {
        SubOp::Create
        | SubOp::Remove
        | SubOp::OmapClear
        | SubOp::AssertExists
        | SubOp::Stat
        | SubOp::ListXattrs => Ok(()),
        SubOp::WriteFull { bytes } | SubOp::Append { bytes } => put_bytes(text, bytes),
        SubOp::Truncate { size: number } | SubOp::AssertVer { ver: number } => {
            put_number(text, *number)
        }
        SubOp::RmXattr { key }
        | SubOp::OmapRm { key }
        | SubOp::GetXattr { key }
        | SubOp::OmapGet { key } => put_name(text, key),
        SubOp::Write { off, bytes } => {
            put_number(text, *off)?;
            put_bytes(text, bytes)
        }
        SubOp::Zero { off, len } | SubOp::Read { off, len } => {
            put_number(text, *off)?;
            put_number(text, *len)
        }
        SubOp::SetXattr { key, bytes }
        | SubOp::OmapSet { key, bytes }
        | SubOp::CmpXattr { key, bytes } => {
            put_name(text, key)?;
            put_bytes(text, bytes)
        }
        SubOp::OmapList { after, max } => {
            put_after(text, after)?;
            put_number(text, *max)
        }
    }
}

// Puts bytes.
fn put_bytes(text: &mut Text, bytes: &Bytes) -> Result<(), NoMemory>
    ensures { OnOk result (text.new ≡ text.old ++ spaced (bytes_word bytes.now)) }
{
    text.push(" ")?;
    text.push_word(bytes.as_slice())
}

// Puts the key to go on from, or a dash for none.
fn put_after(text: &mut Text, after: &Option<Name>) -> Result<(), NoMemory>
    ensures { OnOk result (text.new ≡ text.old ++ spaced (field_word (After after.now))) }
{
    match after {
        Some(key) => put_name(text, key),
        None => text.push(" -"),
    }
}

// The verb of a sub-operation.
fn verb_of(op: &SubOp) -> OpVerb
    ensures { result ≡ verb_of op.now }
{
    match op {
        SubOp::Create => OpVerb::Create,
        SubOp::WriteFull { .. } => OpVerb::WriteFull,
        SubOp::Write { .. } => OpVerb::Write,
        SubOp::Append { .. } => OpVerb::Append,
        SubOp::Zero { .. } => OpVerb::Zero,
        SubOp::Truncate { .. } => OpVerb::Truncate,
        SubOp::Remove => OpVerb::Remove,
        SubOp::SetXattr { .. } => OpVerb::SetXattr,
        SubOp::RmXattr { .. } => OpVerb::RmXattr,
        SubOp::OmapSet { .. } => OpVerb::OmapSet,
        SubOp::OmapRm { .. } => OpVerb::OmapRm,
        SubOp::OmapClear => OpVerb::OmapClear,
        SubOp::AssertExists => OpVerb::AssertExists,
        SubOp::AssertVer { .. } => OpVerb::AssertVer,
        SubOp::CmpXattr { .. } => OpVerb::CmpXattr,
        SubOp::Read { .. } => OpVerb::Read,
        SubOp::Stat => OpVerb::Stat,
        SubOp::GetXattr { .. } => OpVerb::GetXattr,
        SubOp::ListXattrs => OpVerb::ListXattrs,
        SubOp::OmapGet { .. } => OpVerb::OmapGet,
        SubOp::OmapList { .. } => OpVerb::OmapList,
    }
}
