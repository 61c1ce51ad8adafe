//! Words that several texts share.
ghost use Rattle.std.specs.Prelude.{◌≡◌, ◌++◌, OnOk};
ghost use Rattle.std.specs.List.{flat_map};
ghost use Rattle.report_text.specs.Words.{key_text, kept_text, kind_text, number_text, out_text, outs_text, pair_text, path_text, pool_text, reply_text, standing_text, why_text};

use crate::Text;
use obj_model::{Kind, Name, NoMemory, Out, Pair, Path, Pool, Reply, Why};

// A number behind a space.
pub(crate) fn put_number(text: &mut Text, number: u64) -> Result<(), NoMemory>
    ensures { OnOk result (text.new ≡ text.old ++ number_text number) }
{
    text.push(" ")?;
    text.push_number(number)
}

// A name behind a space.
pub(crate) fn put_name(text: &mut Text, name: &Name) -> Result<(), NoMemory>
    ensures { OnOk result (text.new ≡ text.old ++ key_text name.now) }
{
    text.push(" ")?;
    text.push_bytes(name.bytes())
}

// A version and a place.
pub(crate) fn put_standing(text: &mut Text, ver: u64, place: u64) -> Result<(), NoMemory>
    ensures { OnOk result (text.new ≡ text.old ++ standing_text ver place) }
{
    text.push(" v")?;
    text.push_number(ver)?;
    text.push(" @")?;
    text.push_number(place)
}

// A mark behind a reply that was kept.
pub(crate) fn put_kept(text: &mut Text, kept: bool) -> Result<(), NoMemory>
    ensures { OnOk result (text.new ≡ text.old ++ kept_text kept) }
{
    if kept {
        return text.push(" kept");
    }
    Ok(())
}

// Why a sub-operation was refused.
pub(crate) fn put_why(text: &mut Text, why: Why) -> Result<(), NoMemory>
    ensures { OnOk result (text.new ≡ text.old ++ why_text why) }
{
    match why {
        Why::Exists => text.push("exists"),
        Why::NoEnt => text.push("noent"),
        Why::NoData => text.push("nodata"),
        Why::Canceled => text.push("canceled"),
        Why::Range => text.push("range"),
        Why::Overflow => text.push("overflow"),
        Why::TooBig { limit, asked } => {
            text.push("toobig")?;
            put_number(text, limit)?;
            put_number(text, asked)
        }
    }
}

// The reply of an act.
pub(crate) fn put_reply(text: &mut Text, reply: Reply) -> Result<(), NoMemory>
    ensures { OnOk result (text.new ≡ text.old ++ reply_text reply) }
{
    match reply {
        Reply::Done { ver } => {
            text.push("done v")?;
            text.push_number(ver)
        }
        Reply::Refused { at, why, ver } => {
            text.push("refused")?;
            put_number(text, u64::from(at))?;
            text.push(" ")?;
            put_why(text, why)?;
            text.push(" v")?;
            text.push_number(ver)
        }
    }
}

// What sub-operations tell, with a semicolon between two.
pub(crate) fn put_outs(text: &mut Text, outs: &[Out]) -> Result<(), NoMemory>
    ensures { OnOk result (text.new ≡ text.old ++ outs_text outs.now) }
{
    let Some((first, others)) = outs.split_first() else {
        return Ok(());
    };
    put_out(text, first)?;
    for out in others {
        text.push(" ; ")?;
        put_out(text, out)?;
    }
    Ok(())
}

// What one sub-operation tells.
fn put_out(text: &mut Text, out: &Out) -> Result<(), NoMemory>
    ensures { OnOk result (text.new ≡ text.old ++ out_text out.now) }
{
    match out {
        Out::Checked => text.push("ok"),
        Out::Bytes(bytes) => text.push_word(bytes.as_slice()),
        Out::Size(size) => text.push_number(*size),
        Out::Names(keys) => {
            text.push_number(keys.as_slice().len() as u64)?;
            put_keys(text, keys.as_slice())
        }
        Out::Pairs(pairs) => {
            text.push_number(pairs.as_slice().len() as u64)?;
            put_pairs(text, pairs.as_slice())
        }
    }
}

// Keys, each behind a space.
fn put_keys(text: &mut Text, keys: &[Name]) -> Result<(), NoMemory>
    ensures { OnOk result (text.new ≡ text.old ++ flat_map key_text keys.now) }
{
    for key in keys {
        text.push(" ")?;
        text.push_bytes(key.bytes())?;
    }
    Ok(())
}

// Keys with their values, each behind a space.
fn put_pairs(text: &mut Text, pairs: &[Pair]) -> Result<(), NoMemory>
    ensures { OnOk result (text.new ≡ text.old ++ flat_map pair_text pairs.now) }
{
    for pair in pairs {
        text.push(" ")?;
        text.push_bytes(pair.key.bytes())?;
        text.push(" ")?;
        text.push_word(pair.value.as_slice())?;
    }
    Ok(())
}

// The word of a kind of unfinished work.
pub(crate) fn kind_word(kind: Kind) -> &'static str
    ensures { result.now ≡ kind_text kind }
{
    match kind {
        Kind::Promote => "promote",
        Kind::Write => "write",
        Kind::Read => "read",
        Kind::Flush => "flush",
    }
}

// The word of a pool.
pub(crate) fn pool_word(pool: Pool) -> &'static str
    ensures { result.now ≡ pool_text pool }
{
    match pool {
        Pool::Cache => "cache",
        Pool::Base => "base",
    }
}

// The word of a path.
pub(crate) fn path_word(path: Path) -> &'static str
    ensures { result.now ≡ path_text path }
{
    match path {
        Path::Hit => "hit",
        Path::Promote => "promote",
        Path::ProxyRead => "proxy-read",
        Path::ProxyWrite => "proxy-write",
    }
}
