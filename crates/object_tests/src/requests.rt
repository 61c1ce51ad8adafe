//! Requests one after another on one name.
use crate::kinds::looked;
use crate::tools::{
    agree, counted, given, name, number, row, show_obj, show_out, show_why, vector, words,
};
use obj_model::{Kept, KeptList, NameState, Out, Reply, Req};
use obj_ops::{Acted, Answered, Looked, act, act_on};
use std::alloc::Global;
use std::fmt::Write;
use std::process::Abort;
use std::test::Fail;

// The greatest number of requests that can act on a name.
const MOST: u64 = 4_611_686_018_427_387_904;

// A reply in the words of an answer.
fn show_reply(text: &mut String, reply: Reply) -> Result<(), Fail> {
    match reply {
        Reply::Done { ver } => write!(text, "done v{ver}")?,
        Reply::Refused { at, why, ver } => {
            write!(text, "refused {at} ")?;
            show_why(text, why)?;
            write!(text, " v{ver}")?;
        }
    }
    Ok(())
}

// The values that were told, behind the version.
fn show_values(alloc: Global, ver: u64, outs: &[Out]) -> Result<String, Fail> {
    let mut shown = format!(in alloc; "values v{ver}")?;
    for out in outs {
        shown.push(' ')?;
        show_out(&mut shown, out)?;
    }
    Ok(shown)
}

// A reply, as a text of its own.
fn show_refused(alloc: Global, reply: Reply) -> Result<String, Fail> {
    let mut shown = String::new(alloc);
    show_reply(&mut shown, reply)?;
    Ok(shown)
}

// What a read vector tells of a state.
fn told(alloc: Global, state: &NameState, text: &str) -> Result<String, Fail> {
    match looked(alloc, state, text)? {
        Looked::Refused { at, why, ver } => show_refused(alloc, Reply::Refused { at, why, ver }),
        Looked::Values { ver, outs } => show_values(alloc, ver, outs.as_slice()),
    }
}

// What a request did, in the words of an answer.
fn show_answer(alloc: Global, answer: Answered) -> Result<String, Fail> {
    let mut shown = String::new(alloc);
    match answer {
        Answered::Fresh { reply } => show_reply(&mut shown, reply)?,
        Answered::Again { reply } => {
            show_reply(&mut shown, reply)?;
            shown.push_str(" kept")?;
        }
        Answered::Stale { kept } => write!(&mut shown, "stale {kept}")?,
        Answered::Worn { limit } => write!(&mut shown, "worn {limit}")?,
    }
    Ok(shown)
}

// A kept request.
fn show_kept(text: &mut String, kept: &Kept) -> Result<(), Fail> {
    write!(text, " {}:{} ", kept.client, kept.tid)?;
    show_reply(text, kept.reply)
}

// The counts, the object and the kept requests of a state.
pub fn show_state(alloc: Global, state: &NameState) -> Result<String, Fail> {
    let mut text = show_obj(alloc, &state.obj)?;
    write!(&mut text, " v{} @{}", state.ver, state.seq)?;
    for kept in state.seen.as_slice() {
        show_kept(&mut text, kept)?;
    }
    Ok(text)
}

// What a request does to a state that stays.
fn act_aside(alloc: Global, state: &NameState, req: &Req) -> Result<Acted, Fail> {
    if !req.vector.writes() || state.ver > state.seq || state.seq > MOST || req.client != 7 {
        return Err("a request".into());
    }
    given(act(alloc, state, req), "memory")
}

// What it is answered.
fn answer_of(acted: &Acted) -> Answered {
    match acted {
        Acted::Fresh { reply, .. } => Answered::Fresh { reply: *reply },
        Acted::Again { reply } => Answered::Again { reply: *reply },
        Acted::Stale { kept } => Answered::Stale { kept: *kept },
        Acted::Worn { limit } => Answered::Worn { limit: *limit },
    }
}

// The state behind it, where it was this one.
fn state_behind<'a>(acted: &'a Acted, before: &'a NameState) -> &'a NameState {
    match acted {
        Acted::Fresh { state, .. } => state,
        _ => before,
    }
}

// What a request on a state that stays is answered, and what the state after it shows.
fn aside(alloc: Global, state: &NameState, req: &Req) -> Result<(String, Answered), Fail> {
    let acted = act_aside(alloc, state, req)?;
    let shown = show_state(alloc, state_behind(&acted, state))?;
    Ok((shown, answer_of(&acted)))
}

// What a request on a state that is changed where it lies is answered.
fn act_here(alloc: Global, state: &mut NameState, req: &Req) -> Result<Answered, Fail> {
    if !req.vector.writes() || state.ver > state.seq || state.seq > MOST || req.client != 7 {
        return Err("a request".into());
    }
    given(act_on(alloc, state, req), "memory")
}

// What a request is answered, the same on a state that stays and on one that is changed where it
// lies, which have the same end.
fn acted_twice(alloc: Global, state: &mut NameState, req: &Req) -> Result<Answered, Fail> {
    let (shown, answer) = aside(alloc, state, req)?;
    let same = act_here(alloc, state, req)?;
    if same != answer || show_state(alloc, state)? != shown {
        return Err("two ways with two ends".into());
    }
    Ok(answer)
}

// A request of client 7 on the name a.
pub fn request(alloc: Global, tid: u64, text: &str) -> Result<Req, Fail> {
    let name = name(alloc, "a")?;
    Ok(Req {
        client: 7,
        tid,
        name,
        vector: vector(alloc, text)?,
    })
}

// What a request of client 7 is answered, in the words of an answer; it changes the state.
fn acted(alloc: Global, state: &mut NameState, tid: u64, text: &str) -> Result<String, Fail> {
    let req = request(alloc, tid, text)?;
    show_answer(alloc, acted_twice(alloc, state, &req)?)
}

// A tid, or 0 for a reading; the vector; the answer. A blank line begins anew.
const LINES: &str = r#"# an append that is sent twice is done once

1 => append d => done v1
1 => append d => done v1 kept
0 => stat => values v1 1
# a request behind a later one is stale

5 => create => done v1
4 => remove => stale 5
# a gap is filled with zeros, and zeros do not lengthen

1 => write 3 a => done v1
0 => read 0 0 => values v1 ...a
2 => zero 2 9 => done v2
0 => read 0 0 => values v2 ....
# a refused vector leaves the object, acts, and is kept with its refusal

1 => create => done v1
2 => setxattr k a ; assert_ver 9 => refused 1 overflow v1
0 => listxattrs => values v1 
2 => setxattr k a ; assert_ver 9 => refused 1 overflow v1 kept
3 => assert_ver 0 ; remove => refused 0 range v1
# a body above the limit is refused with the size that was asked

1 => writefull *1048576 => done v1
2 => append . => refused 0 toobig 1048576 1048577 v1
0 => stat => values v1 1048576
# what is kept outlives the object

1 => writefull a => done v1
2 => remove => done v2
2 => remove => done v2 kept
0 => read 0 0 => refused 0 noent v2"#;

// What comes of a line, with the tid 0 for a reading.
fn done(alloc: Global, state: &mut NameState, tid: u64, text: &str) -> Result<String, Fail> {
    match tid {
        0 => told(alloc, state, text),
        tid => acted(alloc, state, tid, text),
    }
}

// One line; it tells whether it is a row.
fn line_holds(
    rt: &impl Abort,
    alloc: Global,
    state: &mut NameState,
    line: &str,
) -> Result<u32, Fail> {
    let Some((tid, text, want)) = row(line) else {
        return Ok(0);
    };
    let shown = done(alloc, state, number(tid)?, text)?;
    agree(rt, text, shown.as_str(), want);
    Ok(1)
}

#[test]
fn lines_on_one_name(rt: HostRuntime) -> Result<(), Fail> {
    let alloc = rt.alloc();
    let mut state = NameState::unknown(alloc);
    let mut rows = 0u32;
    for line in LINES.lines() {
        if line.is_empty() {
            state = NameState::unknown(alloc);
        } else {
            rows = rows.saturating_add(line_holds(&rt, alloc, &mut state, line)?);
        }
    }
    counted(&rt, rows, 21);
    Ok(())
}

// The last request of client 7, with tid 9.
fn last(alloc: Global) -> Result<KeptList, Fail> {
    let kept = Kept {
        client: 7,
        tid: 9,
        reply: Reply::Done { ver: 3 },
    };
    Ok(KeptList::from_vec(vec![in alloc; kept]?))
}

// A state that has had so many requests, that the last of them.
fn state_of(alloc: Global, seq: u64) -> Result<NameState, Fail> {
    Ok(NameState {
        ver: 3,
        seq,
        obj: None,
        seen: last(alloc)?,
    })
}

// How many requests such a state has had, and the tid; the vector; the answer.
const WORN: &str = "4611686018427387904 8 => create => stale 9
4611686018427387904 9 => create => done v3 kept
4611686018427387904 10 => create => worn 4611686018427387904
4611686018427387903 10 => create => done v4
4611686018427387903 10 => remove => refused 0 noent v3
9 10 => assert_ver 3 ; append x => done v4";

// What a request on such a state is answered.
fn worn(alloc: Global, numbers: &str, text: &str) -> Result<String, Fail> {
    let (seq, tid) = words(numbers);
    let mut state = state_of(alloc, number(seq)?)?;
    acted(alloc, &mut state, number(tid)?, text)
}

// One row.
fn worn_holds(rt: &impl Abort, alloc: Global, line: &str) -> Result<u32, Fail> {
    let Some((numbers, text, want)) = row(line) else {
        return Ok(0);
    };
    agree(rt, line, worn(alloc, numbers, text)?.as_str(), want);
    Ok(1)
}

#[test]
fn worn_names(rt: HostRuntime) -> Result<(), Fail> {
    let mut rows = 0u32;
    for line in WORN.lines() {
        rows = rows.saturating_add(worn_holds(&rt, rt.alloc(), line)?);
    }
    counted(&rt, rows, 6);
    Ok(())
}
