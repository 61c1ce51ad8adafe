//! Stops at each call: a commit is whole or not there, and a disk that is opened is empty or a log,
//! however often that stops.
use crate::tools::{PAIR, PUT, commit, count, memory, open, value_of};
use log_store::{AttachFault, LogStore};
use mem_disk::{MemDisk, Pick};
use obj_model::Pool;
use std::alloc::Global;
use std::process::Abort;
use std::test::Fail;
use store_face::{Store, StoreFault};
use tier_outside::Disk;

// Opens the store anew and tells whether it has the pair that was put, and nothing else.
fn has_put<S: Store>(rt: &impl Abort, store: &mut S) -> bool {
    assert_eq!(rt; store.reopen(), Ok(()));
    let keys = count(rt, store);
    match value_of(rt, store, b"k") {
        Some(value) => {
            assert_eq!(rt; (keys, value.as_slice()), (1, b"0123456789".as_slice()));
            true
        }
        None => {
            assert_eq!(rt; keys, 0);
            false
        }
    }
}

// Opens an empty disk that stops at a call, and commits: whether the commit was told to be done,
// and what is then found. None, where the store was not opened.
fn stop_at(
    rt: &impl Abort,
    alloc: Global,
    call: u64,
    pick: Pick,
) -> Result<Option<(bool, bool)>, Fail> {
    let disk = memory(rt, alloc, b"", Some(call), pick)?;
    match LogStore::attach(alloc, disk, Pool::Cache, PAIR, 64) {
        Ok(mut store) => {
            let answer = commit(rt, alloc, &mut store, PUT);
            assert!(rt; answer == Ok(()) || answer == Err(StoreFault::Disk));
            Ok(Some((answer.is_ok(), has_put(rt, &mut store))))
        }
        Err((fault, _)) => {
            assert_eq!(rt; fault, AttachFault::Disk);
            Ok(None)
        }
    }
}

// An empty disk is opened in 8 calls, the first of which is the restart that ends a stop. The
// commit has 4: the record is written and settled, and then its gate. What is found after a stop at
// the calls 9 to 12, by what the stop leaves of unsettled bytes:
const FOUND: [(Pick, [bool; 4]); 5] = [
    (Pick::Old, [false, false, false, false]),
    (Pick::New, [false, false, false, true]),
    (Pick::Mixed(5), [false, false, false, false]),
    (Pick::Junk(255), [false, false, false, false]),
    (Pick::Junk(1), [false, false, true, true]),
];

#[test]
fn a_commit_is_whole_or_not_there(rt: HostRuntime) -> Result<(), Fail> {
    let alloc = rt.alloc();
    for (pick, found) in FOUND {
        let mut call = 9u64;
        for there in found {
            let seen = stop_at(&rt, alloc, call, pick)?;
            assert_eq!(rt; seen, Some((false, there)), "{pick:?} at {call}");
            call = call.saturating_add(1);
        }
    }
    Ok(())
}

#[test]
fn a_commit_that_was_told_is_there(rt: HostRuntime) -> Result<(), Fail> {
    let alloc = rt.alloc();
    for (pick, _) in FOUND {
        assert_eq!(rt; stop_at(&rt, alloc, 1, pick)?, Some((true, true)));
        for call in 2..9u64 {
            assert_eq!(rt;
                stop_at(&rt, alloc, call, pick)?,
                None,
                "{pick:?} at {call}"
            );
        }
        assert_eq!(rt; stop_at(&rt, alloc, 13, pick)?, Some((true, true)));
    }
    Ok(())
}

// What the disk reads as after a restart. A stop that did not come while it was opened may come
// now.
fn left<D: Disk>(rt: &impl Abort, alloc: Global, disk: &mut D) -> Result<Vec<u8>, Fail> {
    let mut buf = [0u8; 64];
    assert_eq!(rt; disk.restart(), Ok(()));
    if let Ok(count) = disk.read_at(0, &mut buf) {
        return Ok(Vec::from_slice(alloc, &buf[..count])?);
    }
    assert_eq!(rt; disk.restart(), Ok(()));
    let count = disk.read_at(0, &mut buf).expect(rt, "read");
    Ok(Vec::from_slice(alloc, &buf[..count])?)
}

fn disk_of(rt: &impl Abort, opened: Result<LogStore<MemDisk>, (AttachFault, MemDisk)>) -> MemDisk {
    match opened {
        Ok(store) => store.into_disk(),
        Err((fault, disk)) => {
            assert_eq!(rt; fault, AttachFault::Disk);
            disk
        }
    }
}

// What is left of a disk of these bytes that is opened and stops at a call.
fn opened_until(
    rt: &impl Abort,
    alloc: Global,
    bytes: &[u8],
    call: u64,
    pick: Pick,
) -> Result<Vec<u8>, Fail> {
    let disk = memory(rt, alloc, bytes, Some(call), pick)?;
    let opened = LogStore::attach(alloc, disk, Pool::Cache, PAIR, 64);
    let mut disk = disk_of(rt, opened);
    left(rt, alloc, &mut disk)
}

fn opened_thrice(
    rt: &impl Abort,
    alloc: Global,
    first: u64,
    second: u64,
    pick: Pick,
) -> Result<(), Fail> {
    let once = opened_until(rt, alloc, b"", first, pick)?;
    let twice = opened_until(rt, alloc, once.as_slice(), second, pick)?;
    let disk = memory(rt, alloc, twice.as_slice(), None, pick)?;
    let mut store = open(rt, alloc, disk, 64);
    assert_eq!(rt; count(rt, &mut store), 0);
    Ok(())
}

#[test]
fn an_empty_disk_is_opened_however_often_that_stops(rt: HostRuntime) -> Result<(), Fail> {
    let alloc = rt.alloc();
    for (pick, _) in FOUND {
        for first in 1..10u64 {
            for second in 1..10u64 {
                opened_thrice(&rt, alloc, first, second, pick)?;
            }
        }
    }
    Ok(())
}
