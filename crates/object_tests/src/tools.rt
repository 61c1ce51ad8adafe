//! What the tables share: vectors and objects as short texts.
use obj_model::{Bytes, Name, NameMap, NameState, Obj, Out, Pair, PairMap, SubOp, Vector, Why};
use std::alloc::Global;
use std::fmt::Write;
use std::process::Abort;
use std::test::Fail;

// The word at a place of a sub-operation, or no bytes.
fn word<'a>(words: &'a [&'a str], at: usize) -> &'a str {
    words.get(at).copied().unwrap_or("")
}

// What was found for a row is what was wanted.
pub fn agree(rt: &impl Abort, row: &str, found: &str, want: &str) {
    assert_eq!(rt; found, want, "{row}");
}

// Something that holds of a row.
pub fn holds(rt: &impl Abort, row: &str, verdict: bool) {
    assert!(rt; verdict, "{row}");
}

// So many rows were gone through.
pub fn counted(rt: &impl Abort, rows: u32, want: u32) {
    assert_eq!(rt; rows, want);
}

// A value, or why there is none.
pub fn given<T, E: Drop>(found: Result<T, E>, what: &'static str) -> Result<T, Fail> {
    match found {
        Ok(value) => Ok(value),
        Err(_) => Err(what.into()),
    }
}

// The same of an option.
pub fn some<T>(option: Option<T>, what: &'static str) -> Result<T, Fail> {
    match option {
        Some(value) => Ok(value),
        None => Err(what.into()),
    }
}

// What stands in front of the first space, and behind it.
pub fn words(text: &str) -> (&str, &str) {
    text.split_once(' ').unwrap_or((text, ""))
}

// What stands in front of the first arrow, and behind it.
pub fn sides(text: &str) -> (&str, &str) {
    text.split_once(" => ").unwrap_or((text, ""))
}

// The three parts of a row, with arrows between; none of a comment.
pub fn row(line: &str) -> Option<(&str, &str, &str)> {
    if line.starts_with('#') {
        return None;
    }
    let (first, rest) = sides(line);
    let (second, third) = sides(rest);
    Some((first, second, third))
}

// A number in decimal digits.
pub fn number(word: &str) -> Result<u64, Fail> {
    given(word.parse::<u64>(), "a number")
}

// A name of these bytes.
pub fn name(alloc: Global, word: &str) -> Result<Name, Fail> {
    let bytes = Vec::from_slice(alloc, word.as_bytes())?;
    given(Name::new(bytes), "a name")
}

// So many bytes, each of them this one.
pub fn filled(alloc: Global, byte: u8, count: u64) -> Result<Bytes, Fail> {
    Ok(Bytes::from_vec(vec![in alloc; byte; count as usize]?))
}

// The bytes of a word: `-` is none, `*N` are N times `x`, a point stands for the byte 0.
pub fn bytes(alloc: Global, word: &str) -> Result<Bytes, Fail> {
    if word == "-" {
        return Ok(Bytes::from_vec(Vec::new(alloc)));
    }
    if let Some(count) = word.strip_prefix('*') {
        return filled(alloc, b'x', number(count)?);
    }
    let mut list = Vec::new(alloc);
    for byte in word.as_bytes() {
        list.push(if *byte == b'.' { 0 } else { *byte })?;
    }
    Ok(Bytes::from_vec(list))
}

// A sub-operation that is its verb alone.
fn plain(verb: &str) -> Result<SubOp, Fail> {
    match verb {
        "create" => Ok(SubOp::Create),
        "remove" => Ok(SubOp::Remove),
        "omapclear" => Ok(SubOp::OmapClear),
        "assert_exists" => Ok(SubOp::AssertExists),
        "stat" => Ok(SubOp::Stat),
        "listxattrs" => Ok(SubOp::ListXattrs),
        _ => Err("a sub-operation".into()),
    }
}

// One with a number.
fn numbered(verb: &str, number: u64) -> SubOp {
    match verb {
        "truncate" => SubOp::Truncate { size: number },
        _ => SubOp::AssertVer { ver: number },
    }
}

// One with a range.
fn ranged(verb: &str, off: u64, len: u64) -> SubOp {
    match verb {
        "zero" => SubOp::Zero { off, len },
        _ => SubOp::Read { off, len },
    }
}

// One with bytes and no key, at this place where it has one.
fn carrying(verb: &str, off: u64, bytes: Bytes) -> SubOp {
    match verb {
        "writefull" => SubOp::WriteFull { bytes },
        "append" => SubOp::Append { bytes },
        _ => SubOp::Write { off, bytes },
    }
}

// One with a key and bytes.
fn putting(verb: &str, key: Name, bytes: Bytes) -> SubOp {
    match verb {
        "setxattr" => SubOp::SetXattr { key, bytes },
        "omapset" => SubOp::OmapSet { key, bytes },
        _ => SubOp::CmpXattr { key, bytes },
    }
}

// One with a key alone.
fn keyed(verb: &str, key: Name) -> SubOp {
    match verb {
        "rmxattr" => SubOp::RmXattr { key },
        "omaprm" => SubOp::OmapRm { key },
        "getxattr" => SubOp::GetXattr { key },
        _ => SubOp::OmapGet { key },
    }
}

// The key behind which a list goes on; `-` is none.
fn after(alloc: Global, word: &str) -> Result<Option<Name>, Fail> {
    match word {
        "-" => Ok(None),
        word => Ok(Some(name(alloc, word)?)),
    }
}

// A list of entries.
fn list(alloc: Global, after_word: &str, max: u64) -> Result<SubOp, Fail> {
    let after = after(alloc, after_word)?;
    Ok(SubOp::OmapList { after, max })
}

// One with a key and bytes, in words.
fn pair(alloc: Global, verb: &str, first: &str, second: &str) -> Result<SubOp, Fail> {
    let key = name(alloc, first)?;
    Ok(putting(verb, key, bytes(alloc, second)?))
}

// A sub-operation in the words of a script, its bytes as above.
fn op(alloc: Global, words: &[&str]) -> Result<SubOp, Fail> {
    let verb = word(words, 0);
    let first = word(words, 1);
    let second = word(words, 2);
    match verb {
        "truncate" | "assert_ver" => Ok(numbered(verb, number(first)?)),
        "zero" | "read" => Ok(ranged(verb, number(first)?, number(second)?)),
        "writefull" | "append" => Ok(carrying(verb, 0, bytes(alloc, first)?)),
        "write" => Ok(carrying(verb, number(first)?, bytes(alloc, second)?)),
        "setxattr" | "omapset" | "cmpxattr" => pair(alloc, verb, first, second),
        "rmxattr" | "omaprm" | "getxattr" | "omapget" => Ok(keyed(verb, name(alloc, first)?)),
        "omaplist" => list(alloc, first, number(second)?),
        _ => plain(verb),
    }
}

// A sub-operation in a text.
fn op_of(alloc: Global, text: &str) -> Result<SubOp, Fail> {
    let words = text.split_whitespace().collect::<Vec<&str>>(alloc)?;
    op(alloc, words.as_slice())
}

// A vector's sub-operations, with a `;` between them.
pub fn ops(alloc: Global, text: &str) -> Result<Vec<SubOp>, Fail> {
    let mut ops = Vec::new(alloc);
    for one in text.split(" ; ") {
        ops.push(op_of(alloc, one)?)?;
    }
    Ok(ops)
}

// A vector in the words of a script.
pub fn vector(alloc: Global, text: &str) -> Result<Vector, Fail> {
    given(Vector::new(ops(alloc, text)?), "a vector")
}

// An object without bytes and entries.
pub fn empty_object(alloc: Global) -> Obj {
    Obj {
        body: Bytes::from_vec(Vec::new(alloc)),
        attrs: NameMap::new(alloc),
        omap: NameMap::new(alloc),
    }
}

// Bytes as they stand, with points for the byte 0; many are told by their number.
pub fn show_bytes(text: &mut String, bytes: &[u8]) -> Result<(), Fail> {
    if bytes.len() > 40 {
        write!(text, "#{}", bytes.len())?;
        return Ok(());
    }
    for byte in bytes {
        text.push(if *byte == 0 { '.' } else { char::from(*byte) })?;
    }
    Ok(())
}

// One pair, behind a comma where it is not the first.
fn show_pair(text: &mut String, first: bool, key: &Name, value: &Bytes) -> Result<(), Fail> {
    if !first {
        text.push(',')?;
    }
    show_bytes(text, key.bytes())?;
    text.push('=')?;
    show_bytes(text, value.as_slice())
}

// A table in the order of its keys; many entries are told by their number.
fn show_table(text: &mut String, table: &PairMap) -> Result<(), Fail> {
    if table.len() > 8 {
        write!(text, "#{}", table.len())?;
        return Ok(());
    }
    let mut first = true;
    for (key, value) in table.iter() {
        show_pair(text, first, key, value)?;
        first = false;
    }
    Ok(())
}

// The body, the attributes and the omap of an object.
fn show_parts(text: &mut String, obj: &Obj) -> Result<(), Fail> {
    show_bytes(text, obj.body.as_slice())?;
    text.push('|')?;
    show_table(text, &obj.attrs)?;
    text.push('|')?;
    show_table(text, &obj.omap)
}

// An object, as above; or `none`.
pub fn show_obj(alloc: Global, obj: &Option<Obj>) -> Result<String, Fail> {
    let mut text = String::new(alloc);
    match obj {
        Some(obj) => show_parts(&mut text, obj)?,
        None => text.push_str("none")?,
    }
    Ok(text)
}

// Why something was refused.
pub fn show_why(text: &mut String, why: Why) -> Result<(), Fail> {
    match why {
        Why::Exists => text.push_str("exists")?,
        Why::NoEnt => text.push_str("noent")?,
        Why::NoData => text.push_str("nodata")?,
        Why::Canceled => text.push_str("canceled")?,
        Why::Range => text.push_str("range")?,
        Why::Overflow => text.push_str("overflow")?,
        Why::TooBig { limit, asked } => write!(text, "toobig {limit} {asked}")?,
    }
    Ok(())
}

// Pairs with commas between them.
fn show_pairs(text: &mut String, pairs: &[Pair]) -> Result<(), Fail> {
    let mut first = true;
    for pair in pairs {
        show_pair(text, first, &pair.key, &pair.value)?;
        first = false;
    }
    Ok(())
}

// Names with commas between them.
fn show_names(text: &mut String, names: &[Name]) -> Result<(), Fail> {
    let mut first = true;
    for name in names {
        if !first {
            text.push(',')?;
        }
        first = false;
        show_bytes(text, name.bytes())?;
    }
    Ok(())
}

// What one sub-operation told.
pub fn show_out(text: &mut String, out: &Out) -> Result<(), Fail> {
    match out {
        Out::Checked => text.push_str("ok")?,
        Out::Bytes(bytes) => show_bytes(text, bytes.as_slice())?,
        Out::Size(size) => write!(text, "{size}")?,
        Out::Names(names) => show_names(text, names.as_slice())?,
        Out::Pairs(pairs) => show_pairs(text, pairs.as_slice())?,
    }
    Ok(())
}

// A state of version 3 with this object.
pub fn state_with(alloc: Global, obj: Option<Obj>) -> NameState {
    NameState {
        ver: 3,
        seq: 5,
        obj,
        seen: NameState::unknown(alloc).seen,
    }
}
