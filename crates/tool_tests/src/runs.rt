//! Runs whose texts were worked out by hand.
use crate::tools::{memory, run_on};
use mem_disk::{MemDisk, Pick};
use std::alloc::Global;
use std::process::Abort;
use std::test::Fail;

const ROOM: u64 = 4096;

const TWO: &[u8] = b"op 1 1 a writefull 616263\nget 1 a read 0 0\n";

const EIGHT: &[u8] = b"op 1 1 a writefull 61\nop 1 2 a remove\nop 1 2 a remove\nop 1 1 a remove\n\
    get 1 a read 0 0\nop 1 1 b writefull -\nget 1 b read 0 0\nop 1 3 a writefull 62\n";

const EIGHT_TEXTS: [&[u8]; 8] = [
    b"1 done v1 @1\n",
    b"2 done v2 @2\n",
    b"3 done v2 @2 kept\n",
    b"4 stale 2\n",
    b"5 refused 0 noent v2 @2\n",
    b"6 done v1 @3\n",
    b"7 values v1 @3 -\n",
    b"8 done v3 @4\n",
];

#[test]
fn scripts_on_an_empty_base(rt: HostRuntime) -> Result<(), Fail> {
    let alloc = rt.alloc();
    let table: [(&[u8], &[u8]); 9] = [
        (TWO, b"1 done v1 @1\n2 values v1 @1 616263\n"),
        (
            b"op 1 1 a writefull 61\nop 1 1 a writefull 61",
            b"1 done v1 @1\n2 done v1 @1 kept\n",
        ),
        (
            b"op 1 5 a writefull 61\nop 1 4 a remove\n",
            b"1 done v1 @1\n2 stale 5\n",
        ),
        (b"get 1 a read 0 0\n", b"1 refused 0 noent v0 @0\n"),
        (b"", b""),
        (b"\n# nothing\n", b""),
        (
            b"op 1 1 a remove\nop 1 2 a writefull 00ff\nget 1 a read 0 0\n",
            b"1 refused 0 noent v0 @1\n2 done v1 @2\n3 values v1 @2 00ff\n",
        ),
        (
            b"# one\n\nop 1 1 a writefull -\n#\t\xc3\xa9\nget 256 a read 0 0\n",
            b"3 done v1 @1\n5 values v1 @1 -\n",
        ),
        (
            b"op 3 4611686018427387904 ~ writefull 0a\nop 3 0 ~ remove\n",
            b"1 done v1 @1\n2 stale 4611686018427387904\n",
        ),
    ];
    for (script, text) in table {
        let base = memory(&rt, alloc, b"", None, 0, Pick::Old)?;
        let (status, sink, _) = run_on(&rt, alloc, script, base, ROOM, 0)?;
        assert_eq!(rt; (status, sink.bytes()), (0, text));
    }
    Ok(())
}

// A run that puts this text and ends well: the disk that it leaves.
fn run_puts(
    rt: &impl Abort,
    alloc: Global,
    script: &[u8],
    base: MemDisk,
    text: &[u8],
) -> Result<MemDisk, Fail> {
    let (status, sink, base) = run_on(rt, alloc, script, base, ROOM, 0)?;
    assert_eq!(rt; (status, sink.bytes()), (0, text));
    Ok(base)
}

// What was kept is answered as kept; the places are the acts of this run.
#[test]
fn the_same_disks_again(rt: HostRuntime) -> Result<(), Fail> {
    let alloc = rt.alloc();
    let table: [(&[u8], &[u8]); 3] = [
        (TWO, b"1 done v1 @1\n2 values v1 @1 616263\n"),
        (TWO, b"1 done v1 @0 kept\n2 values v1 @0 616263\n"),
        (
            b"op 1 2 a remove\nget 1 a read 0 0\n",
            b"1 done v2 @1\n2 refused 0 noent v2 @1\n",
        ),
    ];
    let mut base = memory(&rt, alloc, b"", None, 0, Pick::Old)?;
    for (script, text) in table {
        base = run_puts(&rt, alloc, script, base, text)?;
    }
    Ok(())
}

// The sink fails at the second text: the first line was told, and its object is there.
#[test]
fn a_sink_that_fails_at_its_second_put(rt: HostRuntime) -> Result<(), Fail> {
    let alloc = rt.alloc();
    let base = memory(&rt, alloc, b"", None, 0, Pick::Old)?;
    let (status, sink, base) = run_on(&rt, alloc, TWO, base, ROOM, 2)?;
    assert_eq!(rt; (status, sink.bytes()), (8, b"1 done v1 @1\n".as_slice()));
    let again = b"1 done v1 @0 kept\n2 values v1 @0 616263\n";
    run_puts(&rt, alloc, TWO, base, again)?;
    Ok(())
}

// Wherever the sink fails, the texts before were put, and what they told is kept; so is the act of
// the line that was not heard.
#[test]
fn failing_sinks(rt: HostRuntime) -> Result<(), Fail> {
    let alloc = rt.alloc();
    let mut texts = Vec::new(alloc);
    let mut call = 0u64;
    for text in EIGHT_TEXTS {
        call = call.saturating_add(1);
        let base = memory(&rt, alloc, b"", None, 0, Pick::Old)?;
        let (status, sink, base) = run_on(&rt, alloc, EIGHT, base, ROOM, call)?;
        assert_eq!(rt;
            (status, sink.bytes(), sink.calls()),
            (8, texts.as_slice(), call)
        );
        let (status, sink, _) = run_on(&rt, alloc, b"op 1 1 a writefull 61\n", base, ROOM, 0)?;
        let next: &[u8] = if call < 2 {
            b"1 done v1 @0 kept\n"
        } else {
            b"1 stale 2\n"
        };
        let after_last: &[u8] = if call < 8 { next } else { b"1 stale 3\n" };
        assert_eq!(rt; (status, sink.bytes()), (0, after_last));
        texts.extend_from_slice(text)?;
    }
    let base = memory(&rt, alloc, b"", None, 0, Pick::Old)?;
    let (status, sink, _) = run_on(&rt, alloc, EIGHT, base, ROOM, 9)?;
    assert_eq!(rt; (status, sink.bytes()), (0, texts.as_slice()));
    Ok(())
}

// Disks that are refused, and that are empty although they have bytes.
#[test]
fn what_stands_on_the_base(rt: HostRuntime) -> Result<(), Fail> {
    let alloc = rt.alloc();
    let table: [(&[u8], u8, &[u8]); 7] = [
        (b"hi", 5, b"image base 0 bad 0\n"),
        (
            b"\x01\0\0\0\x10RTLOG001\x02\0\0\0\0\0\0\x01\x01\0",
            5,
            b"image base 0 bad 1\n",
        ),
        (
            b"\x01\0\0\0\x11RTLOG002\x02\0\0\0\0\0\0\x01\x01\0",
            5,
            b"image base 0 bad 5\n",
        ),
        (
            b"\x01\0\0\0\x11RTLOG001\x01\0\0\0\0\0\0\x01\x01\0",
            5,
            b"image base 0 bad 13\n",
        ),
        (
            b"\x01\0\0\0\x11RTLOG001\x02\0\0\0\0\0\0\x01\x02\0",
            5,
            b"image base 0 pair 258 257\n",
        ),
        (
            b"\x01\0\0\0\x11RTLOG001\x02\0\0\0\0\0\0\x01\x01\0",
            0,
            b"1 refused 0 noent v0 @0\n",
        ),
        (b"\0hello", 0, b"1 refused 0 noent v0 @0\n"),
    ];
    for (bytes, want, text) in table {
        let base = memory(&rt, alloc, bytes, None, 0, Pick::Old)?;
        let (status, sink, _) = run_on(&rt, alloc, b"get 1 a read 0 0\n", base, ROOM, 0)?;
        assert_eq!(rt; (status, sink.bytes()), (want, text));
        let base = memory(&rt, alloc, bytes, None, 0, Pick::Old)?;
        let (status, sink, _) = run_on(&rt, alloc, b"get 1 a read 0 0\n", base, ROOM, 1)?;
        assert_eq!(rt; (status, sink.bytes().len()), (8, 0));
    }
    Ok(())
}

// An empty log uses 23 bytes. The state of `a` is spelled in 49, its put in 59, and its record with
// the gate behind it takes 64.
#[test]
fn a_full_base(rt: HostRuntime) -> Result<(), Fail> {
    let alloc = rt.alloc();
    let table: [(u64, &[u8]); 3] = [
        (64, b"1 nospace base 23 64 64\n2 refused 0 noent v0 @0\n"),
        (86, b"1 nospace base 23 64 86\n2 refused 0 noent v0 @0\n"),
        (87, b"1 done v1 @1\n2 values v1 @1 616263\n"),
    ];
    for (room, text) in table {
        let base = memory(&rt, alloc, b"", None, 0, Pick::Old)?;
        if room < 64 || 87 < room {
            continue;
        }
        let (status, sink, _) = run_on(&rt, alloc, TWO, base, room, 0)?;
        assert_eq!(rt; (status, sink.bytes()), (0, text));
    }
    Ok(())
}

// Under the key of `a` stands the byte h, which spells no state. It stays as it is, and other names
// are answered.
#[test]
fn an_unreadable_name(rt: HostRuntime) -> Result<(), Fail> {
    let alloc = rt.alloc();
    let script: &[u8] = b"op 1 1 a writefull 61\nget 1 a read 0 0\nop 1 1 b writefull 62\n";
    let table: [&[u8]; 2] = [
        b"1 badrecord base a\n2 badrecord base a\n3 done v1 @1\n",
        b"1 badrecord base a\n2 badrecord base a\n3 done v1 @0 kept\n",
    ];
    let mut base = memory(
        &rt,
        alloc,
        b"\x01\0\0\0\x11RTLOG001\x02\0\0\0\0\0\0\x01\
        \x01\x01\0\0\0\x0b\x01\x01\0\x02Na\0\0\0\x01h\0",
        None,
        0,
        Pick::Old,
    )?;
    for text in table {
        base = run_puts(&rt, alloc, script, base, text)?;
    }
    Ok(())
}
