//! Whole calls by their words: rows of words, script, status and text, worked out by hand. A call
//! that is to touch no disk is given one that fails at its first call.
use crate::tools::{call, text_of};
use std::alloc::Global;
use std::process::Abort;
use std::test::Fail;
use tier_outside::MemSource;

// Words, a script, a status and what is put, apart by ` | `; a slash ends a line.
const ROWS: &str =
    r#"run | op 1 1 a append 64/op 1 1 a append 64/get 1 a stat/ | 0 | 1 done v1 @1/2 done v1 @1 kept/3 values v1 @1 1/
run | op 1 5 a create/op 1 4 a remove/ | 0 | 1 done v1 @1/2 stale 5/
run | op 1 1 a write 3 61/get 1 a read 0 0/op 1 2 a zero 2 9/get 1 a read 0 0/ | 0 | 1 done v1 @1/2 values v1 @1 00000061/3 done v2 @2/4 values v2 @2 00000000/
run | op 1 1 a create/op 1 2 a setxattr k 61 ; assert_ver 9/get 1 a listxattrs/op 1 2 a setxattr k 61 ; assert_ver 9/op 1 3 a assert_ver 0 ; remove/ | 0 | 1 done v1 @1/2 refused 1 overflow v1 @2/3 values v1 @2 0/4 refused 1 overflow v1 @2 kept/5 refused 0 range v1 @3/
run | op 1 1 a setxattr k 61 ; omapset b - ; omapset a 62 ; append 00/get 1 a assert_exists ; stat ; getxattr k ; listxattrs ; omaplist - 9 ; omapget b/ | 0 | 1 done v1 @1/2 values v1 @1 ok ; 1 ; 61 ; 1 k ; 2 a 62 b - ; -/
run --count 5 |  | 0 | 
run | snap a/ | 4 | script 1 left-out snap/
run | get 1 a/fly/ | 4 | script 1 words/
run | time 5/time 4/ | 4 | script 2 time/
run | mode forward/ | 4 | script 1 left-out forward/
run | flush a/ | 4 | script 1 unbuilt/
run | op 1 1 a remove/# a comment//get 1 a stat/stop base/flush a/ | 4 | script 5 unbuilt/
run | flush a/fly/ | 4 | script 2 verb/
check | op 1 1 a writefull 616263/get 1 a read 0 0/ | 0 | ok 2/
check |  | 0 | ok 0/
check | # one//# two/ | 0 | ok 0/
check | # one//get 1 a stat/#/par/get 2 a stat/end/flush a/time 5 | 0 | ok 6/
check --count 3 --start 9 | drain | 0 | ok 1/
check | #/fly/ | 4 | script 2 verb/
check | par/ | 4 | script 1 par/
gen --count 5 | fly | 0 | op 4 1 o2548 writefull 6c576fac43fd007c/get 7 o307 read 0 0/op 1 3 o1393 append a5fae1992097aa0e/get 2 o1741 read 0 0/get 9 o1068 stat/
gen --count 1 --start 0 | fly | 0 | op 8 1 o2614 writefull 14057b7ef767814f/
gen --count 0 | fly | 0 | 
 | get 1 a stat/ | 2 | usage
fly | get 1 a stat/ | 2 | usage
Run | get 1 a stat/ | 2 | usage
run run | get 1 a stat/ | 2 | usage
show | get 1 a stat/ | 2 | usage
run --paths | get 1 a stat/ | 2 | usage
run --history | get 1 a stat/ | 2 | usage
run --summary | get 1 a stat/ | 2 | usage
check --paths | get 1 a stat/ | 2 | usage
gen --history | get 1 a stat/ | 2 | usage
--summary gen | get 1 a stat/ | 2 | usage
run --help | get 1 a stat/ | 2 | usage
-h | get 1 a stat/ | 2 | usage
gen --count 1000001 | get 1 a stat/ | 2 | usage
gen --count x | get 1 a stat/ | 2 | usage"#;

const USAGE: &str =
    "usage: run|check|show|gen [--paths] [--history] [--summary] [--count N] [--start N]\n";

// Whether the call of a row ends as it says.
fn is_row(rt: &impl Abort, alloc: Global, row: &str) -> Result<bool, Fail> {
    let (words, row) = row.split_once(" | ").ok_or("words")?;
    let (script, row) = row.split_once(" | ").ok_or("a script")?;
    let (status, text) = row.split_once(" | ").ok_or("a status")?;
    let status = status.parse::<u8>().ok().ok_or("a number")?;
    let touches = words.starts_with("run") && status == 0;
    let script = text_of(alloc, script)?;
    let mut source = MemSource::new(script.into_bytes(), Vec::new(alloc));
    let ended = call(rt, alloc, words, &mut source, u64::from(!touches), 0)?;
    let text = if text == "usage" {
        String::from_str(alloc, USAGE)?
    } else {
        text_of(alloc, text)?
    };
    Ok(ended.status == status && ended.sink.bytes() == text.as_bytes())
}

#[test]
fn calls_by_their_words(rt: HostRuntime) -> Result<(), Fail> {
    let mut rows = 0u32;
    for row in ROWS.lines() {
        assert!(rt; is_row(&rt, rt.alloc(), row)?, "{row}");
        rows = rows.saturating_add(1);
    }
    assert_eq!(rt; rows, 38);
    Ok(())
}

// The generated script is put in pieces of 65,536 bytes, and nothing is read for it; where the sink
// fails at the second, the first was put.
#[test]
fn a_generated_script_in_pieces(rt: HostRuntime) -> Result<(), Fail> {
    let alloc = rt.alloc();
    let mut source = MemSource::new(Vec::new(alloc), Vec::new(alloc));
    let whole = call(&rt, alloc, "gen --count 3000", &mut source, 1, 0)?;
    assert_eq!(rt;
        (whole.status, whole.sink.calls(), source.calls()),
        (0, 2, 0)
    );
    let cut = call(&rt, alloc, "gen --count 3000", &mut source, 1, 2)?;
    assert_eq!(rt; (cut.status, cut.sink.bytes().len()), (8, 65_536));
    let (front, _) = whole
        .sink
        .bytes()
        .split_at(65_536.min(whole.sink.bytes().len()));
    assert!(rt; cut.sink.bytes() == front);
    Ok(())
}

// What is generated is a script, and each of its lines is answered.
#[test]
fn a_generated_script_runs(rt: HostRuntime) -> Result<(), Fail> {
    let alloc = rt.alloc();
    let mut none = MemSource::new(Vec::new(alloc), Vec::new(alloc));
    let made = call(&rt, alloc, "gen --count 40 --start 7", &mut none, 1, 0)?;
    let script = Vec::from_slice(alloc, made.sink.bytes())?;
    let mut source = MemSource::new(script, Vec::new(alloc));
    let checked = call(&rt, alloc, "check", &mut source, 1, 0)?;
    assert_eq!(rt;
        (checked.status, checked.sink.bytes()),
        (0, b"ok 40\n".as_slice())
    );
    let script = Vec::from_slice(alloc, made.sink.bytes())?;
    let mut source = MemSource::new(script, Vec::new(alloc));
    let ran = call(&rt, alloc, "run", &mut source, 0, 0)?;
    assert_eq!(rt; (ran.status, ran.sink.calls()), (0, 40));
    Ok(())
}

// A source that fails, and a sink that does, in a script that is only read.
#[test]
fn failures_of_a_check(rt: HostRuntime) -> Result<(), Fail> {
    let alloc = rt.alloc();
    let mut source = MemSource::new(Vec::from_slice(alloc, b"drain\n")?, vec![in alloc; 1u64]?);
    let ended = call(&rt, alloc, "check", &mut source, 1, 0)?;
    assert_eq!(rt; (ended.status, ended.sink.calls()), (7, 0));
    let ended = call(&rt, alloc, "check", &mut source, 1, 1)?;
    assert_eq!(rt; (ended.status, ended.sink.bytes().len()), (8, 0));
    Ok(())
}

// A body of as many bytes as an object may have, and one more.
#[test]
fn a_full_body(rt: HostRuntime) -> Result<(), Fail> {
    let alloc = rt.alloc();
    let mut script = Vec::from_slice(alloc, b"op 1 1 a writefull ")?;
    script.extend_from_slice(vec![in alloc; b'0'; 2_097_152]?.as_slice())?;
    script.extend_from_slice(b"\nop 1 2 a append 00\n")?;
    let mut source = MemSource::new(script, Vec::new(alloc));
    let ended = call(&rt, alloc, "run", &mut source, 0, 0)?;
    assert_eq!(rt;
        (ended.status, ended.sink.bytes()),
        (
            0,
            b"1 done v1 @1\n2 refused 0 toobig 1048576 1048577 v1 @2\n".as_slice()
        )
    );
    Ok(())
}
