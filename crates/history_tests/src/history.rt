//! Pushes into a history, what its entries weigh (64, and the bytes that each carries), and which
//! calls may still act.
ghost use Rattle.std.specs.Prelude.{◌≤◌};

use crate::tools::{bytes, name, object};
use crate::values::outs;
use obj_model::{NameState, Reply, Req, SubOp, Vector};
use std::alloc::Global;
use std::test::*;
use tier_chron::{Act, Answer, First, History, Logged};

// A sub-operation by its word, with a key of 2 bytes and a value of 5.
fn op(alloc: Global, word: &str) -> Result<SubOp, Fail> {
    let key = name(alloc, "kk")?;
    let bytes = bytes(alloc, "vvvvv")?;
    Ok(match word {
        "writefull" => SubOp::WriteFull { bytes },
        "setxattr" => SubOp::SetXattr { key, bytes },
        "omaprm" => SubOp::OmapRm { key },
        "assert_ver" => SubOp::AssertVer { ver: 9 },
        _ => SubOp::Remove,
    })
}

// A vector of these sub-operations.
fn vector(alloc: Global, words: &str) -> Result<Vector, Fail> {
    let mut ops = Vec::new(alloc);
    for word in words.split(' ') {
        ops.push(op(alloc, word)?)?;
    }
    Ok(Vector::new(ops).ok().ok_or("a vector")?)
}

// An act of these sub-operations on `n`.
fn act(alloc: Global, words: &str) -> Result<Act, Fail> {
    let name = name(alloc, "n")?;
    let vector = vector(alloc, words)?;
    let req = Req {
        client: 1,
        tid: 1,
        name,
        vector,
    };
    let reply = Reply::Done { ver: 1 };
    Ok(Act {
        call: 1,
        line: 1,
        req,
        reply,
    })
}

// What a history weighs that has this act alone.
fn weight_of_act(alloc: Global, act: Act) -> Result<u64, Fail> {
    let mut history = History::new(alloc);
    history.reserve(1)?;
    history.push_act(None, act);
    Ok(history.bytes())
}

const ACTS: &str = "writefull => 69
setxattr => 71
omaprm => 66
assert_ver writefull => 69
remove => 64
setxattr omaprm setxattr => 80";

#[test]
fn weights_of_acts(rt: HostRuntime) -> Result<(), Fail> {
    for row in ACTS.lines() {
        let (words, weight) = row.split_once(" => ").ok_or("a row")?;
        let found = weight_of_act(rt.alloc(), act(rt.alloc(), words)?)?;
        assert!(rt; weight.parse::<u64>() == Ok(found), "{row}");
    }
    Ok(())
}

// A logged answer.
fn logged(call: u64, answer: Answer) -> Logged {
    Logged {
        call,
        line: 1,
        begin: 0,
        place: 0,
        end: 0,
        path: None,
        answer,
    }
}

// What a history weighs that has this answer alone.
fn weight_of_answer(alloc: Global, answer: Answer) -> Result<u64, Fail> {
    let mut history = History::new(alloc);
    history.reserve(1)?;
    history.push_answer(logged(1, answer));
    Ok(history.bytes())
}

// Outs, of which keys and bytes weigh.
const OUTS: &str = "ok => 64
size => 64
=abc => 67
= => 64
k: => 64
k:k1.key => 69
p:p.key => 72
ok =a k:k1.k2 p:p size => 72";

#[test]
fn weights_of_answers(rt: HostRuntime) -> Result<(), Fail> {
    for row in OUTS.lines() {
        let (words, weight) = row.split_once(" => ").ok_or("a row")?;
        let outs = outs(rt.alloc(), words)?;
        let found = weight_of_answer(rt.alloc(), Answer::Values { ver: 1, outs })?;
        assert!(rt; weight.parse::<u64>() == Ok(found), "{row}");
    }
    Ok(())
}

// The opening of `n` at this version, with 3 bytes, an attribute of 3 and two entries of 3 and 4.
fn opening(alloc: Global, ver: u64) -> Result<First, Fail> {
    let obj = Some(object(alloc)?);
    let name = name(alloc, "n")?;
    let mut state = NameState::unknown(alloc);
    state.ver = ver;
    state.obj = obj;
    Ok(First { name, state })
}

// Pushes an act of these sub-operations with an opening of `n` at this version.
fn push_opened(history: &mut History, alloc: Global, ver: u64, words: &str) -> Result<(), Fail> {
    let first = opening(alloc, ver)?;
    let act = act(alloc, words)?;
    history.reserve(1)?;
    history.push_act(Some(first), act);
    Ok(())
}

// A history with an opening at version 7, two acts and an answer; the second opening of its name
// counts for nothing.
fn small_history(alloc: Global) -> Result<History, Fail> {
    let mut history = History::new(alloc);
    push_opened(&mut history, alloc, 7, "writefull")?;
    push_opened(&mut history, alloc, 8, "omaprm")?;
    history.reserve(1)?;
    history.push_answer(logged(1, Answer::Clean));
    Ok(history)
}

#[test]
fn openings_count_once(rt: HostRuntime) -> Result<(), Fail> {
    let history = small_history(rt.alloc())?;
    assert!(rt; history.entries() == 4);
    assert!(rt; history.bytes() == 64 + 13 + 69 + 66 + 64);
    assert!(rt; history.acts().len() == 2 && history.answers().len() == 1);
    let n = name(rt.alloc(), "n")?;
    assert!(rt; matches!(history.opening_of(&n), Some(state) if state.ver == 7));
    let m = name(rt.alloc(), "m")?;
    assert!(rt; history.opening_of(&m).is_none());
    Ok(())
}

// Pushes so many answers.
fn push_many(history: &mut History, count: u64)
    requires { count ≤ history.old.spare }
{
    for call in 0..count {
        history.push_answer(logged(call, Answer::Clean));
    }
}

#[test]
fn a_million_pushes_after_one_reserve(rt: HostRuntime) -> Result<(), Fail> {
    let mut history = History::new(rt.alloc());
    history.reserve(1_000_000)?;
    push_many(&mut history, 1_000_000);
    assert!(rt; history.entries() == 1_000_000 && history.bytes() == 64_000_000);
    assert!(rt; history.answers().len() == 1_000_000);
    Ok(())
}

// Pushes an entry of call 1 by its word; nothing of another word.
fn push_word(history: &mut History, alloc: Global, word: &str) -> Result<(), Fail> {
    history.reserve(1)?;
    match word {
        "act" => {
            let act = act(alloc, "remove")?;
            history.push_act(None, act);
        }
        "restarted" => history.push_answer(logged(1, Answer::Restarted { was: 1, now: 2 })),
        "worn" => history.push_answer(logged(1, Answer::Worn { limit: 9 })),
        "memory" => history.push_answer(logged(1, Answer::NoMemory)),
        "clean" => history.push_answer(logged(1, Answer::Clean)),
        _ => {}
    }
    Ok(())
}

// Entries of call 1, and whether it may act behind them.
const ENTRIES: &str = "nothing => yes
act => no
restarted => yes
worn => yes
memory => no
clean => no
restarted act => no
clean restarted => no";

#[test]
fn calls_that_may_act(rt: HostRuntime) -> Result<(), Fail> {
    for row in ENTRIES.lines() {
        let (words, may) = row.split_once(" => ").ok_or("a row")?;
        let mut history = History::new(rt.alloc());
        for word in words.split(' ') {
            push_word(&mut history, rt.alloc(), word)?;
        }
        assert!(rt; history.may_act(1) == (may == "yes"), "{row}");
        assert!(rt; history.may_act(2), "{row}");
    }
    Ok(())
}
