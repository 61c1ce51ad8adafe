//! Runs that end before the base is opened: refused words and scripts, failing sources, and the
//! limits.
ghost use Rattle.std.specs.Prelude.{None};

use crate::tools::{Called, call};
use std::alloc::Global;
use std::process::Abort;
use std::test::Fail;
use tier_outside::{MemSource, Source, SourceFault};

// A source of so many bytes that are all newlines or all zero.
#[derive(Drop)]
struct Flood {
    left: usize,
    newlines: bool,
}

impl Source for Flood {
    ghost left = { λ _. None };

    ghost faults = { λ _. 0 };

    fn fill(&mut self, buf: &mut [u8]) -> Result<usize, SourceFault> {
        let count = self.left.min(buf.len());
        self.left -= count;
        if self.newlines {
            buf.fill(b'\n');
        }
        Ok(count)
    }
}

#[test]
fn refused_scripts(rt: HostRuntime) -> Result<(), Fail> {
    let alloc = rt.alloc();
    let table: [(&[u8], &[u8]); 11] = [
        (b"fly\n", b"script 1 verb\n"),
        (b"op 1 1 a writefull 61\nfly", b"script 2 verb\n"),
        (b"#\n\n get 1 a read 0 0\nfly\n", b"script 3 words\n"),
        (b"op 0 1 a remove\n", b"script 1 client\n"),
        (b"snap a\n", b"script 1 left-out snap\n"),
        (b"#\nop 1 1 a remove ; stat\n", b"script 2 mixed 1\n"),
        (b"op 1 1 a writefull 6g\n", b"script 1 hex\n"),
        // Scripts that are accepted, whose first verb that is not built is told.
        (b"flush a\n", b"script 1 unbuilt\n"),
        (
            b"op 1 1 a remove\n\nget 1 a read 0 0\nevict a\nflush a\n",
            b"script 4 unbuilt\n",
        ),
        (b"get 1 a read 0 0\ntime 5\n", b"script 2 unbuilt\n"),
        // A script that is refused is told first.
        (b"flush a\nfly\n", b"script 2 verb\n"),
    ];
    for (script, text) in table {
        let mut source = MemSource::new(Vec::from_slice(alloc, script)?, Vec::new(alloc));
        let Called { status, sink } = call(&rt, alloc, "run", &mut source, 1, 0)?;
        assert_eq!(rt; (status, sink.bytes()), (4, text));
        let mut source = MemSource::new(Vec::from_slice(alloc, script)?, Vec::new(alloc));
        let Called { status, sink } = call(&rt, alloc, "run", &mut source, 1, 1)?;
        assert_eq!(rt; (status, sink.bytes().len()), (8, 0));
    }
    Ok(())
}

// A script of more than one piece, whose source fails at its first or second call: nothing is put.
#[test]
fn failing_sources(rt: HostRuntime) -> Result<(), Fail> {
    let alloc = rt.alloc();
    for at in [1u64, 2] {
        let mut source = MemSource::new(vec![in alloc; b'\n'; 5000]?, vec![in alloc; at]?);
        let Called { status, sink } = call(&rt, alloc, "run", &mut source, 1, 1)?;
        assert_eq!(rt; (status, sink.calls()), (7, 0));
    }
    Ok(())
}

#[test]
fn words(rt: HostRuntime) -> Result<(), Fail> {
    let alloc = rt.alloc();
    for list in ["", "run run", "Run", "run ", "show", "run --summary"] {
        let mut source = MemSource::new(
            Vec::from_slice(alloc, b"get 1 a read 0 0\n")?,
            Vec::new(alloc),
        );
        let Called { status, sink } = call(&rt, alloc, list, &mut source, 1, 1)?;
        assert_eq!(rt; (status, sink.bytes().len()), (8, 0));
        assert_eq!(rt; source.calls(), 0);
    }
    Ok(())
}

// A run over a flood: its status, and the sink.
fn run_over_flood(
    rt: &impl Abort,
    alloc: Global,
    left: usize,
    newlines: bool,
) -> Result<Called, Fail> {
    let mut source = Flood { left, newlines };
    call(rt, alloc, "run", &mut source, 1, 0)
}

#[test]
fn many_lines(rt: HostRuntime) -> Result<(), Fail> {
    let Called { status, sink } = run_over_flood(&rt, rt.alloc(), 1_000_001, true)?;
    assert_eq!(rt; (status, sink.bytes()), (4, b"script 0 lines\n".as_slice()));
    Ok(())
}

// Of both limits, that in bytes is tried first.
#[test]
fn many_bytes(rt: HostRuntime) -> Result<(), Fail> {
    let Called { status, sink } = run_over_flood(&rt, rt.alloc(), 268_435_457, true)?;
    assert_eq!(rt; (status, sink.bytes()), (4, b"script 0 long\n".as_slice()));
    Ok(())
}
