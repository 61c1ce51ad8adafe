//! What the tests share: disks in memory, and runs on them.
ghost use Rattle.std.specs.Prelude.{IfOk};
ghost use Rattle.tool_jobs.specs.Outside.{IsOnePair, IsRoom};

use mem_disk::{MemDisk, Pick};
use std::alloc::Global;
use std::process::Abort;
use std::test::Fail;
use tier_outside::{MemSink, MemSource, Source};
use tier_tool::{DiskPair, tier_main};

// A disk of these bytes that stops at a call, or fails at another, where 0 is none.
pub fn memory(
    rt: &impl Abort,
    alloc: Global,
    bytes: &[u8],
    stop_at: Option<u64>,
    fails: u64,
    pick: Pick,
) -> Result<MemDisk, Fail> {
    let bytes = Vec::from_slice(alloc, bytes)?;
    Ok(MemDisk::new(alloc, bytes, vec![in alloc; fails]?, stop_at, pick).expect(rt, "made"))
}

// How a run on a base disk ended: its status, the sink, which fails at the call of this number, and
// the disk, which is handed back.
pub fn run_on(
    rt: &impl Abort,
    alloc: Global,
    script: &[u8],
    base: MemDisk,
    base_room: u64,
    sink_fails: u64,
) -> Result<(u8, MemSink, MemDisk), Fail>
    requires { IsRoom base_room }
{
    let pair = DiskPair {
        cache: memory(rt, alloc, b"cache", None, 0, Pick::Old)?,
        base,
        cache_room: 100,
        base_room,
    };
    let words = vec![in alloc; String::from_str(alloc, "run")?]?;
    let mut source = MemSource::new(Vec::from_slice(alloc, script)?, Vec::new(alloc));
    let mut sink = MemSink::new(vec![in alloc; sink_fails]?);
    let disks = vec![in alloc; pair]?;
    let ended = tier_main(alloc, words.as_slice(), &mut source, &mut sink, disks);
    let mut disks = ended.disks;
    let pair = disks.pop().expect(rt, "handed back");
    assert_eq!(rt;
        (disks.len(), pair.cache_room, pair.base_room),
        (0, 100, base_room)
    );
    Ok((ended.status, sink, pair.base))
}

/// A text of which a slash ends each line.
pub fn text_of(alloc: Global, row: &str) -> Result<String, Fail> {
    let mut text = String::new(alloc);
    let mut first = true;
    for line in row.split('/') {
        if !first {
            text.push('\n')?;
        }
        first = false;
        text.push_str(line)?;
    }
    Ok(text)
}

// The words of a command line, which stand apart by single spaces.
fn words_of(alloc: Global, line: &str) -> Result<Vec<String>, Fail> {
    let mut words = Vec::new(alloc);
    for word in line.split(' ') {
        words.push(String::from_str(alloc, word)?)?;
    }
    if line.is_empty() {
        words.clear();
    }
    Ok(words)
}

// One pair of empty disks, of which the base's fails at this call, where 0 is none.
fn empty_pair(
    rt: &impl Abort,
    alloc: Global,
    disk_fails: u64,
) -> Result<Vec<DiskPair<MemDisk>>, Fail>
    ensures { IfOk result (λ disks. IsOnePair disks.items) }
{
    let pair = DiskPair {
        cache: memory(rt, alloc, b"", None, 0, Pick::Old)?,
        base: memory(rt, alloc, b"", None, disk_fails, Pick::Old)?,
        cache_room: 4096,
        base_room: 4_194_304,
    };
    Ok(vec![in alloc; pair]?)
}

/// How a call ended, and the sink with what was put.
#[derive(Drop)]
pub struct Called {
    pub status: u8,
    pub sink: MemSink,
}

/// A call with these words over a source and empty disks, where the base's disk and the sink fail
/// at these calls, of which 0 is none.
pub fn call<S: Source>(
    rt: &impl Abort,
    alloc: Global,
    words: &str,
    source: &mut S,
    disk_fails: u64,
    sink_fails: u64,
) -> Result<Called, Fail> {
    let words = words_of(alloc, words)?;
    let mut sink = MemSink::new(vec![in alloc; sink_fails]?);
    let disks = empty_pair(rt, alloc, disk_fails)?;
    let ended = tier_main(alloc, words.as_slice(), source, &mut sink, disks);
    Ok(Called {
        status: ended.status,
        sink,
    })
}
