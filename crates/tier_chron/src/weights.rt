//! How much entries weigh: 64 and the bytes that each carries. Each sum stops at the greatest
//! 64-bit number.
ghost use Rattle.std.specs.Prelude.{◌≡◌, length, map, sum_by};
ghost use Rattle.tier_chron.specs.Weights.{act_weight, answer_payload, cut, first_weight, logged_weight, obj_weight, out_weight, pair_weight, table_weight};

use crate::{Act, Answer, First, Logged};
use obj_model::{Name, Obj, Out, Pair, PairMap};

// What an entry weighs that carries nothing.
const ENTRY: u64 = 64;

/// What an opening weighs: the body, keys and values of its object.
pub(crate) fn first_weight(first: &First) -> u64
    ensures { result ≡ cut (first_weight first.now) }
{
    ENTRY.saturating_add(obj_weight(&first.state.obj))
}

/// What an act weighs: the bytes, keys and names of its vector.
pub(crate) fn act_weight(act: &Act) -> u64
    ensures { result ≡ cut (act_weight act.now) }
{
    ENTRY.saturating_add(act.req.vector.payload())
}

/// What an answer weighs: the bytes and names of its outs.
pub(crate) fn logged_weight(logged: &Logged) -> u64
    ensures { result ≡ cut (logged_weight logged.now) }
{
    ENTRY.saturating_add(answer_payload(&logged.answer))
}

// The body, keys and values of an object.
fn obj_weight(obj: &Option<Obj>) -> u64
    ensures { result ≡ cut (obj_weight obj.now) }
{
    match obj {
        None => 0,
        Some(obj) => {
            let body = obj.body.as_slice().len() as u64;
            let tables = table_weight(&obj.attrs).saturating_add(table_weight(&obj.omap));
            body.saturating_add(tables)
        }
    }
}

// The keys and values of a table.
fn table_weight(table: &PairMap) -> u64
    ensures { result ≡ cut (table_weight table.now) }
{
    let mut total = 0u64;
    for (key, value) in table.iter() {
        total = total.saturating_add(key.bytes().len() as u64);
        total = total.saturating_add(value.as_slice().len() as u64);
    }
    total
}

// What an answer carries.
fn answer_payload(answer: &Answer) -> u64
    ensures { result ≡ cut (answer_payload answer.now) }
{
    match answer {
        Answer::Values { outs, .. } => outs_weight(outs.as_slice()),
        _ => 0,
    }
}

// What sub-operations told.
fn outs_weight(outs: &[Out]) -> u64
    ensures { result ≡ cut (sum_by out_weight outs.now) }
{
    let mut total = 0u64;
    for out in outs {
        total = total.saturating_add(out_weight(out));
    }
    total
}

// What one sub-operation told.
fn out_weight(out: &Out) -> u64
    ensures { result ≡ cut (out_weight out.now) }
{
    match out {
        Out::Checked => 0,
        Out::Bytes(bytes) => bytes.as_slice().len() as u64,
        Out::Size(_) => 0,
        Out::Names(keys) => keys_weight(keys.as_slice()),
        Out::Pairs(pairs) => pairs_weight(pairs.as_slice()),
    }
}

// Keys.
fn keys_weight(keys: &[Name]) -> u64
    ensures { result ≡ cut (sum_by length keys.now) }
{
    let mut total = 0u64;
    for key in keys {
        total = total.saturating_add(key.bytes().len() as u64);
    }
    total
}

// Keys with their values.
fn pairs_weight(pairs: &[Pair]) -> u64
    ensures { result ≡ cut (sum_by pair_weight pairs.now) }
{
    let mut total = 0u64;
    for pair in pairs {
        total = total.saturating_add(pair.key.bytes().len() as u64);
        total = total.saturating_add(pair.value.as_slice().len() as u64);
    }
    total
}
