//! Sources and sinks: the calls that fail, the end of the input, what a failed put leaves,
//! interruptions, and that the types may go to another thread.

use std::io::{self, ErrorKind, Read, Write};
use std::test::Fail;
use tier_outside::{MemSink, MemSource, Sink, Source, SourceFault, StdSink, StdSource};

// Every other call is interrupted; from the call of number `broken` on each call fails.
#[derive(Drop)]
struct Faulty<T> {
    inner: T,
    calls: u64,
    broken: u64,
}

fn next_error<T>(faulty: &mut Faulty<T>) -> io::Result<()> {
    faulty.calls = faulty.calls.saturating_add(1);
    if faulty.calls >= faulty.broken {
        return Err(io::Error::from(ErrorKind::NotFound));
    }
    if faulty.calls % 2 == 1 {
        return Err(io::Error::from(ErrorKind::Interrupted));
    }
    Ok(())
}

impl<R: Read> Read for Faulty<R> {
    fn read(&mut self, buf: &mut [u8]) -> io::Result<usize> {
        next_error(self)?;
        self.inner.read(buf)
    }
}

impl<W: Write> Write for Faulty<W> {
    fn write(&mut self, buf: &[u8]) -> io::Result<usize> {
        next_error(self)?;
        self.inner.write(buf)
    }

    fn flush(&mut self) -> io::Result<()> {
        self.inner.flush()
    }
}

const FAULT: Result<usize, SourceFault> = Err(SourceFault);

#[test]
fn a_source_fails_at_the_listed_calls(rt: HostRuntime) -> Result<(), Fail> {
    let alloc = rt.alloc();
    let table = [
        (0, 0, [Ok(2), Ok(2), Ok(1), Ok(0), Ok(0)], 0),
        (1, 1, [FAULT, Ok(2), Ok(2), Ok(1), Ok(0)], 1),
        (2, 4, [Ok(2), FAULT, Ok(2), FAULT, Ok(1)], 2),
        (5, 3, [Ok(2), Ok(2), FAULT, Ok(1), FAULT], 2),
        (6, 7, [Ok(2), Ok(2), Ok(1), Ok(0), Ok(0)], 0),
    ];
    for (first, second, want, faults) in table {
        let fails = vec![in alloc; first, second]?;
        let mut source = MemSource::new(Vec::from_slice(alloc, b"abcde")?, fails);
        let mut got: Vec<u8> = Vec::new(alloc);
        for result in want {
            let mut buf = [b'-'; 2];
            let count = source.fill(&mut buf);
            assert_eq!(rt; count, result, "fails {first} {second}");
            got.extend_from_slice(&buf[..count.unwrap_or(0).min(2)])?;
            assert_eq!(rt; got.len().saturating_add(source.left().len()), 5);
            assert!(rt; b"abcde".ends_with(source.left()));
        }
        assert!(rt; b"abcde".starts_with(got.as_slice()));
        assert_eq!(rt; (source.calls(), source.faults()), (5, faults));
    }
    Ok(())
}

#[test]
fn a_sink_fails_at_the_listed_calls(rt: HostRuntime) -> Result<(), Fail> {
    let alloc = rt.alloc();
    let table: [(u64, u64, &[u8], u64); 4] = [
        (0, 0, b"onetwothree", 0),
        (1, 1, b"twothree", 1),
        (3, 2, b"one", 2),
        (4, 3, b"onetwo", 1),
    ];
    for (first, second, want, faults) in table {
        let mut sink = MemSink::new(vec![in alloc; first, second]?);
        for (number, piece) in [(1, "one"), (2, "two"), (3, "three")] {
            let fails = number == first || number == second;
            assert_eq!(rt; sink.put(piece.as_bytes()).is_err(), fails);
        }
        assert_eq!(rt; sink.bytes(), want);
        assert_eq!(rt; (sink.calls(), sink.faults()), (3, faults));
    }
    Ok(())
}

#[test]
fn a_reader_is_read_to_its_end_and_its_fault(rt: HostRuntime) -> Result<(), Fail> {
    let table: [(u64, [Result<usize, SourceFault>; 3], u64); 4] = [
        (9, [Ok(2), Ok(1), Ok(0)], 0),
        (4, [Ok(2), FAULT, FAULT], 2),
        (3, [Ok(2), FAULT, FAULT], 2),
        (1, [FAULT, FAULT, FAULT], 3),
    ];
    for (broken, want, faults) in table {
        let inner: &[u8] = b"abc";
        let mut source = StdSource::new(Faulty {
            inner,
            calls: 0,
            broken,
        });
        for result in want {
            let mut buf = [0u8; 2];
            assert_eq!(rt; source.fill(&mut buf), result, "broken {broken}");
        }
        assert_eq!(rt; source.faults(), faults);
    }
    Ok(())
}

#[test]
fn a_writer_is_written_in_full_or_in_front(rt: HostRuntime) -> Result<(), Fail> {
    let alloc = rt.alloc();
    let mut whole = StdSink::new(Vec::new(alloc));
    assert!(rt; whole.put(b"one").is_ok() && whole.put(b"").is_ok() && whole.put(b"two").is_ok());
    assert_eq!(rt; whole.into_inner().as_slice(), b"onetwo".as_slice());
    let mut room = [b'-'; 5];
    let mut short = StdSink::new(room.as_mut_slice());
    assert!(rt; short.put(b"one").is_ok() && short.put(b"two").is_err() && short.put(b"").is_ok());
    assert_eq!(rt; short.faults(), 1);
    drop(short);
    assert_eq!(rt; room, *b"onetw");
    let table: [(u64, bool, &[u8], u64); 3] = [
        (9, true, b"onetwo", 0),
        (3, false, b"one", 1),
        (1, false, b"", 2),
    ];
    for (broken, want, bytes, faults) in table {
        let inner = Vec::new(alloc);
        let mut sink = StdSink::new(Faulty {
            inner,
            calls: 0,
            broken,
        });
        let _ = sink.put(b"one");
        assert_eq!(rt; sink.put(b"two").is_ok(), want, "broken {broken}");
        assert_eq!(rt; sink.faults(), faults);
        assert_eq!(rt; sink.into_inner().inner.as_slice(), bytes);
    }
    Ok(())
}

fn is_sent<T: Send>(_value: &T) -> bool {
    true
}

fn adapters_are_sent<R: Read + Send, W: Write + Send>(
    source: &StdSource<R>,
    sink: &StdSink<W>,
) -> bool {
    is_sent(source) && is_sent(sink)
}

#[test]
fn they_go_to_another_thread(rt: HostRuntime) -> Result<(), Fail> {
    let alloc = rt.alloc();
    let bytes: &[u8] = b"a";
    let source = StdSource::new(bytes);
    let sink: StdSink<Vec<u8>> = StdSink::new(Vec::new(alloc));
    assert!(rt; adapters_are_sent(&source, &sink));
    assert!(rt; is_sent(&MemSource::new(Vec::new(alloc), Vec::new(alloc))));
    assert!(rt; is_sent(&MemSink::new(Vec::new(alloc))));
    Ok(())
}
