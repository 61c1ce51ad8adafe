//! Runs whose base disk stops or fails at each of its calls.
use crate::tools::{memory, run_on};
use mem_disk::Pick;
use std::alloc::Global;
use std::process::Abort;
use std::test::Fail;

const ROOM: u64 = 4096;

const ONE: &[u8] = b"op 1 1 a writefull 616263\n";

// How a run and the next one on its disk ended, as a letter. The line was told, and is kept (T);
// the run ended before the line, which is done anew (s); it ended in the line, which is done anew
// (a) or kept (k). No run may give a question mark.
fn ends(first: (u8, &[u8]), next: (u8, &[u8])) -> u8 {
    let kept = next == (0, b"1 done v1 @0 kept\n".as_slice());
    let anew = next == (0, b"1 done v1 @1\n".as_slice());
    let told = first == (0, b"1 done v1 @1\n".as_slice());
    let silent = first == (6, b"".as_slice());
    let in_line = first == (6, b"1 fault base\n".as_slice());
    match (told, silent, in_line) {
        (true, false, false) if kept => b'T',
        (false, true, false) if anew => b's',
        (false, false, true) if anew => b'a',
        (false, false, true) if kept => b'k',
        _ => b'?',
    }
}

// A run on an empty disk with a stop or a fault at a call, and the next on what it left.
fn run_twice(
    rt: &impl Abort,
    alloc: Global,
    stop_at: Option<u64>,
    fails: u64,
    pick: Pick,
) -> Result<u8, Fail> {
    let base = memory(rt, alloc, b"", stop_at, fails, pick)?;
    let (status, sink, base) = run_on(rt, alloc, ONE, base, ROOM, 0)?;
    let (next, heard, _) = run_on(rt, alloc, ONE, base, ROOM, 0)?;
    Ok(ends((status, sink.bytes()), (next, heard.bytes())))
}

// An empty disk is opened in eight calls: it is restarted and looked at, and three writes, each
// with a sync, format it. A restart ends a stop that begins at it. The act takes four: its record
// is written and settled (9, 10), and then the gate before it (11, 12). What comes of a stop, and
// of a fault, at the calls 1 to 12:
const TABLE: [(Pick, &[u8], &[u8]); 5] = [
    (Pick::Old, b"Tsssssssaaaa", b"ssssssssaaaa"),
    (Pick::New, b"Tsssssssaaak", b"ssssssssaaak"),
    // The gate lies at 22, whose bit is 0: it stays as it was settled.
    (Pick::Mixed(5), b"Tsssssssaaaa", b"ssssssssaaaa"),
    (Pick::Junk(255), b"Tsssssssaaaa", b"ssssssssaaaa"),
    // The junk is an open gate.
    (Pick::Junk(1), b"Tsssssssaakk", b"ssssssssaakk"),
];

#[test]
fn what_was_told_is_kept(rt: HostRuntime) -> Result<(), Fail> {
    let alloc = rt.alloc();
    for (pick, stops, faults) in TABLE {
        let mut call = 1u64;
        for (stop, fault) in stops.iter().zip(faults.iter()) {
            assert_eq!(rt;
                run_twice(&rt, alloc, Some(call), 0, pick)?,
                *stop,
                "{pick:?}, a stop at {call}"
            );
            assert_eq!(rt;
                run_twice(&rt, alloc, None, call, pick)?,
                *fault,
                "{pick:?}, a fault at {call}"
            );
            call = call.saturating_add(1);
        }
    }
    Ok(())
}
