//! A new log's bytes, its room, what is refused, and changes that are read again.
ghost use Rattle.std.specs.Prelude.{◌≤◌, ◌^◌};

use crate::tools::{EMPTY, PAIR, PUT, commit, count, memory, open, reads_as, refusal, value_of};
use log_store::{AttachFault, Found, peek};
use mem_disk::Pick;
use obj_model::Pool;
use std::alloc::Global;
use std::process::Abort;
use std::test::Fail;
use store_face::{Store, StoreFault};

#[test]
fn an_empty_disk_is_formatted(rt: HostRuntime) -> Result<(), Fail> {
    let alloc = rt.alloc();
    let disk = memory(&rt, alloc, b"", None, Pick::Old)?;
    let mut disk = open(&rt, alloc, disk, 64).into_disk();
    reads_as(&rt, &mut disk, EMPTY);
    assert_eq!(rt; peek(&mut disk, Pool::Cache), Ok(Found::Pair(PAIR)));
    Ok(())
}

#[test]
fn a_commit_is_refused_where_it_does_not_fit(rt: HostRuntime) -> Result<(), Fail> {
    let alloc = rt.alloc();
    let disk = memory(&rt, alloc, EMPTY, None, Pick::Old)?;
    let mut store = open(&rt, alloc, disk, 64);
    assert_eq!(rt; commit(&rt, alloc, &mut store, PUT), Ok(()));
    let refused = StoreFault::NoSpace {
        used: 47,
        need: 24,
        limit: 64,
    };
    assert_eq!(rt; commit(&rt, alloc, &mut store, PUT), Err(refused));
    let value = value_of(&rt, &mut store, b"k").expect(&rt, "kept");
    assert_eq!(rt; value.as_slice(), b"0123456789".as_slice());
    Ok(())
}

// Whether a second commit fits into the room.
fn fits_twice(rt: &impl Abort, alloc: Global, room: u64) -> Result<bool, Fail>
    requires least { 64 ≤ room }
    requires most { room ≤ 2 ^ 40 }
{
    let disk = memory(rt, alloc, EMPTY, None, Pick::Old)?;
    let mut store = open(rt, alloc, disk, room);
    assert_eq!(rt; commit(rt, alloc, &mut store, PUT), Ok(()));
    Ok(commit(rt, alloc, &mut store, PUT).is_ok())
}

#[test]
fn a_commit_may_use_the_last_byte(rt: HostRuntime) -> Result<(), Fail> {
    let alloc = rt.alloc();
    assert_eq!(rt; fits_twice(&rt, alloc, 71)?, true);
    assert_eq!(rt; fits_twice(&rt, alloc, 70)?, false);
    Ok(())
}

fn refuses(rt: &impl Abort, alloc: Global, bytes: &[u8], fault: AttachFault) -> Result<(), Fail> {
    let disk = memory(rt, alloc, bytes, None, Pick::Old)?;
    assert_eq!(rt; refusal(alloc, disk), Some(fault));
    Ok(())
}

#[test]
fn what_is_no_log_of_the_pair_is_refused(rt: HostRuntime) -> Result<(), Fail> {
    let alloc = rt.alloc();
    refuses(&rt, alloc, b"hi", AttachFault::BadImage { at: 0 })?;
    let other = b"\x01\0\0\0\x11RTLOG001\x01\0\0\0\0\0\0\x01\x02\0";
    let wrong = AttachFault::WrongPair {
        found: 258,
        want: 257,
    };
    refuses(&rt, alloc, other, wrong)?;
    let half = b"\x02\0\0\0\x11RTLOG001\x01\0\0\0\0\0\0\x01\x02\0";
    refuses(&rt, alloc, half, wrong)?;
    let base = b"\x01\0\0\0\x11RTLOG001\x02\0\0\0\0\0\0\x01\x01\0";
    refuses(&rt, alloc, base, AttachFault::BadImage { at: 13 })?;
    let cut = b"\x01\0\0\0\x11RTLOG001\x01\0\0\0\0\0\0\x01\x01\x01\0\0\0\x02\x01\x01";
    refuses(&rt, alloc, cut, AttachFault::BadImage { at: 22 })?;
    let no_txn = b"\x01\0\0\0\x11RTLOG001\x01\0\0\0\0\0\0\x01\x01\x01\0\0\0\x01\x09\0";
    refuses(&rt, alloc, no_txn, AttachFault::BadImage { at: 27 })
}

#[test]
fn a_look_tells_what_a_disk_holds(rt: HostRuntime) -> Result<(), Fail> {
    let alloc = rt.alloc();
    let table: [(&[u8], Pool, Result<Found, AttachFault>); 5] = [
        (b"", Pool::Base, Ok(Found::Empty)),
        (b"\0\x01\x02", Pool::Cache, Ok(Found::Empty)),
        (EMPTY, Pool::Cache, Ok(Found::Pair(257))),
        (EMPTY, Pool::Base, Err(AttachFault::BadImage { at: 13 })),
        (b"hi", Pool::Cache, Err(AttachFault::BadImage { at: 0 })),
    ];
    for (bytes, role, found) in table {
        let mut disk = memory(&rt, alloc, bytes, None, Pick::Old)?;
        assert_eq!(rt; peek(&mut disk, role), found);
    }
    Ok(())
}

// The key `a` is put, and the key `k` is taken away.
const CHANGES: &[u8] = b"\x02\x01\0\x01a\0\0\0\0\x02\0\x01k";

#[test]
fn changes_are_read_again(rt: HostRuntime) -> Result<(), Fail> {
    let alloc = rt.alloc();
    let disk = memory(&rt, alloc, b"", None, Pick::Old)?;
    let mut store = open(&rt, alloc, disk, 1000);
    assert_eq!(rt; commit(&rt, alloc, &mut store, PUT), Ok(()));
    assert_eq!(rt; commit(&rt, alloc, &mut store, CHANGES), Ok(()));
    assert_eq!(rt; store.reopen(), Ok(()));
    assert!(rt; value_of(&rt, &mut store, b"k").is_none());
    let value = value_of(&rt, &mut store, b"a").expect(&rt, "put");
    assert_eq!(rt; value.as_slice(), b"".as_slice());
    assert_eq!(rt; count(&rt, &mut store), 1);
    Ok(())
}
