//! Lines, acts and rows of both pools, written by hand. Many texts are put one behind another and
//! compared as a whole.
use crate::tools::{Row, mode, name, object, why};
use obj_model::{Items, Kept, KeptList, NameState, Obj, Path, Reply, Req, SubOp, Vector};
use report_text::{Text, Told, answer_text, put_act, put_base_row, put_cache_row, put_call};
use std::alloc::Global;
use std::test::*;
use tier_chron::{Act, Answer};

const WITH_PATHS: &str = "1 done v3 @7 hit
2 done v3 @7 promote
3 done v3 @7 proxy-read
40 done v3 @7 proxy-write
5 done v3 @7
";

const WITHOUT_PATHS: &str = "1 done v3 @7
2 done v3 @7
3 done v3 @7
40 done v3 @7
5 done v3 @7
";

// A path by its word.
fn path(word: &str) -> Option<Path> {
    match word {
        "hit" => Some(Path::Hit),
        "promote" => Some(Path::Promote),
        "proxy-read" => Some(Path::ProxyRead),
        "proxy-write" => Some(Path::ProxyWrite),
        _ => None,
    }
}

// Puts a line behind a text, which is empty afterwards where memory lacked.
fn line(text: &mut Text, number: u32, told: &[Told<'_>], paths: bool) {
    if answer_text(text, number, told, paths).is_err() {
        text.clear();
    }
}

// Puts the line of such a row, with its path where it is asked for.
fn one_line(text: &mut Text, row: &str, paths: bool) {
    let mut row = Row::new(row);
    let number = u32::try_from(row.number()).unwrap_or(0);
    let (_, _, _) = (row.word(), row.word(), row.word());
    let answer = Answer::Done {
        ver: 3,
        kept: false,
    };
    let told = Told::Answered {
        answer: &answer,
        path: path(row.word()),
        place: 7,
    };
    line(text, number, &[told], paths);
}

#[test]
fn paths_on_and_off(rt: HostRuntime) {
    let mut on = Text::new(rt.alloc());
    let mut off = Text::new(rt.alloc());
    for row in WITH_PATHS.lines() {
        one_line(&mut on, row, true);
        one_line(&mut off, row, false);
    }
    assert!(rt; on.as_slice() == WITH_PATHS.as_bytes());
    assert!(rt; off.as_slice() == WITHOUT_PATHS.as_bytes());
}

// What a line is told that has no answer, by its words.
fn other<'a>(words: &str) -> Told<'a> {
    let mut row = Row::new(words);
    match row.word() {
        "mode" => Told::Mode {
            mode: mode(row.word()),
        },
        "time" => Told::Time {
            moment: row.number(),
        },
        "epoch" => Told::CacheStopped {
            epoch: row.number(),
        },
        _ => Told::BaseStopped,
    }
}

// Whether this is the line of number 9 that is told so, with paths.
fn tells(alloc: Global, told: &[Told<'_>], want: &str) -> bool {
    let mut text = Text::new(alloc);
    line(&mut text, 9, told, true);
    text.as_slice() == want.as_bytes()
}

#[test]
fn lines_without_an_answer(rt: HostRuntime) {
    let alloc = rt.alloc();
    assert!(rt; tells(alloc, &[other("mode proxy")], "9 mode proxy\n"));
    assert!(rt; tells(alloc, &[other("time 60")], "9 time 60\n"));
    assert!(rt; tells(alloc, &[other("base")], "9 stopped base\n"));
    assert!(rt; tells(alloc, &[other("epoch 2")], "9 stopped cache epoch 2\n"));
}

// The same of a line that two groups answer.
fn both_tell<'a>(alloc: Global, first: Told<'a>, second: Told<'a>, want: &str) -> bool {
    tells(alloc, &[first, second], want)
}

#[test]
fn lines_of_many_groups(rt: HostRuntime) {
    let alloc = rt.alloc();
    let (first, second) = (other("epoch 2"), other("epoch 30"));
    let text = "9 stopped cache epoch 2 ; stopped cache epoch 30\n";
    assert!(rt; both_tell(alloc, first, second, text));
    assert!(rt; tells(alloc, &[], "9 \n"));
}

// An answer at place 7.
fn told<'a>(answer: &'a Answer, path: Option<Path>) -> Told<'a> {
    Told::Answered {
        answer,
        path,
        place: 7,
    }
}

#[test]
fn answers_of_many_groups(rt: HostRuntime) {
    let clean = Answer::Clean;
    let absent = Answer::Absent;
    let (first, second) = (told(&clean, Some(Path::Hit)), told(&absent, None));
    assert!(rt; both_tell(rt.alloc(), first, second, "9 clean hit ; absent\n"));
}

#[test]
fn calls_of_one_group(rt: HostRuntime) -> Result<(), Fail> {
    let mut text = Text::new(rt.alloc());
    put_call(&mut text, 12, &Answer::Stale { kept: 4 }, 9)?;
    put_call(&mut text, 13, &Answer::Done { ver: 1, kept: true }, 9)?;
    assert!(rt; text.as_slice() == b"12 stale 4\n13 done v1 @9 kept\n".as_slice());
    Ok(())
}

// An act of client 12 on the name `a`.
fn act(alloc: Global, tid: u64, reply: Reply) -> Result<Act, Fail> {
    let mut ops = Vec::new(alloc);
    ops.push(SubOp::Remove)?;
    let req = Req {
        client: 12,
        tid,
        name: name(alloc, "a")?,
        vector: Vector::new(ops).ok().ok_or("a vector")?,
    };
    Ok(Act {
        call: 1,
        line: 2,
        req,
        reply,
    })
}

const ACTS: &str = "act 0 1 12 8 a done v4
act 1 2 12 9 a refused 2 noent v4
act 15 3 12 10 a refused 0 toobig 4096 4097 v5
";

// Puts an act of client 12 on the name `a` with this reply.
fn put_one(text: &mut Text, alloc: Global, group: u32, tid: u64, reply: Reply) -> Result<(), Fail> {
    let act = act(alloc, tid, reply)?;
    put_act(text, group, tid.saturating_sub(7), &act)?;
    Ok(())
}

// A refusal.
fn refused(at: u8, word: &str, ver: u64) -> Reply {
    let why = why(word);
    Reply::Refused { at, why, ver }
}

#[test]
fn acts_of_a_history(rt: HostRuntime) -> Result<(), Fail> {
    let alloc = rt.alloc();
    let mut text = Text::new(alloc);
    put_one(&mut text, alloc, 0, 8, Reply::Done { ver: 4 })?;
    put_one(&mut text, alloc, 1, 9, refused(2, "noent", 4))?;
    put_one(&mut text, alloc, 15, 10, refused(0, "toobig", 5))?;
    assert!(rt; text.as_slice() == ACTS.as_bytes());
    Ok(())
}

// Three kept requests.
fn seen(alloc: Global) -> Result<KeptList, Fail> {
    let mut seen = Items::new(alloc);
    for client in [1, 2, 5] {
        seen.push(Kept {
            client,
            tid: 1,
            reply: Reply::Done { ver: 1 },
        })?;
    }
    Ok(seen)
}

// A state with this object and three kept requests.
fn state(alloc: Global, obj: Option<Obj>) -> Result<NameState, Fail> {
    let seen = seen(alloc)?;
    Ok(NameState {
        ver: 2,
        seq: 5,
        obj,
        seen,
    })
}

const ROWS: &str = "cache 0 a dirty v2 q5 bytes 3 attrs 1 omap 2 ids 3
base 15 a v2 q5 bytes 3 attrs 1 omap 2 ids 3
cache 0 a clean v2 q5 gone ids 3
base 15 a v2 q5 gone ids 3
";

// Puts a state's rows in the cache, dirty or clean, and in the base.
fn put_rows(text: &mut Text, alloc: Global, dirty: bool, obj: Option<Obj>) -> Result<(), Fail> {
    let state = state(alloc, obj)?;
    let name = name(alloc, "a")?;
    put_cache_row(text, 0, &name, dirty, &state)?;
    put_base_row(text, 15, &name, &state)?;
    Ok(())
}

#[test]
fn rows_of_both_pools(rt: HostRuntime) -> Result<(), Fail> {
    let alloc = rt.alloc();
    let mut text = Text::new(alloc);
    put_rows(&mut text, alloc, true, Some(object(alloc)?))?;
    put_rows(&mut text, alloc, false, None)?;
    assert!(rt; text.as_slice() == ROWS.as_bytes());
    Ok(())
}
