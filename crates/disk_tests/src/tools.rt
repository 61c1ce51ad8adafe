//! What the tests share: disks, stores that are opened on them, and commits of transactions that
//! are written out as bytes.
ghost use Rattle.std.specs.Prelude.{◌≤◌, ◌^◌};

use log_store::{AttachFault, LogStore};
use mem_disk::{FogDisk, MemDisk, Pick};
use obj_model::{Bytes, Pool};
use rec_codec::read_txn;
use std::alloc::Global;
use std::process::Abort;
use std::test::Fail;
use store_face::{Store, StoreFault};
use tier_outside::Disk;

pub const PAIR: u64 = 257;

// An empty log of the cache of this pair.
pub const EMPTY: &[u8] = b"\x01\0\0\0\x11RTLOG001\x01\0\0\0\0\0\0\x01\x01\0";

// One change: the key `k` gets a value of ten bytes.
pub const PUT: &[u8] = b"\x01\x01\0\x01k\0\0\0\x0a0123456789";

// A disk of these bytes that fails at the listed calls, and stops at a call.
pub fn failing(
    rt: &impl Abort,
    alloc: Global,
    bytes: &[u8],
    fails: &[u64],
    stop_at: Option<u64>,
    pick: Pick,
) -> Result<MemDisk, Fail> {
    let bytes = Vec::from_slice(alloc, bytes)?;
    let fails = Vec::from_slice(alloc, fails)?;
    Ok(MemDisk::new(alloc, bytes, fails, stop_at, pick).expect(rt, "made"))
}

// A disk of these bytes that stops at a call.
pub fn memory(
    rt: &impl Abort,
    alloc: Global,
    bytes: &[u8],
    stop_at: Option<u64>,
    pick: Pick,
) -> Result<MemDisk, Fail> {
    failing(rt, alloc, bytes, &[], stop_at, pick)
}

// A disk that tells nothing, and reads as other bytes from a call on.
pub fn fog(
    rt: &impl Abort,
    alloc: Global,
    bytes: &[u8],
    swap_at: Option<u64>,
    with: &[u8],
) -> Result<FogDisk, Fail> {
    let with = Vec::from_slice(alloc, with)?;
    Ok(FogDisk::new(memory(rt, alloc, bytes, None, Pick::Old)?, swap_at, with))
}

// The store of the cache that is opened with this room.
pub fn open<D: Disk + Drop>(rt: &impl Abort, alloc: Global, disk: D, room: u64) -> LogStore<D>
    requires least { 64 ≤ room }
    requires most { room ≤ 2 ^ 40 }
{
    match LogStore::attach(alloc, disk, Pool::Cache, PAIR, room) {
        Ok(store) => store,
        Err((fault, _)) => panic!(rt; "{fault:?}"),
    }
}

// Why a store of the cache is not opened.
pub fn refusal<D: Disk + Drop>(alloc: Global, disk: D) -> Option<AttachFault> {
    match LogStore::attach(alloc, disk, Pool::Cache, PAIR, 64) {
        Ok(_) => None,
        Err((fault, _)) => Some(fault),
    }
}

// Commits the transaction that these bytes spell.
pub fn commit<S: Store>(
    rt: &impl Abort,
    alloc: Global,
    store: &mut S,
    bytes: &[u8],
) -> Result<(), StoreFault> {
    let changes = read_txn(alloc, bytes).expect(rt, "memory");
    let changes = changes.expect(rt, "a transaction");
    assert!(rt; store.is_live());
    store.commit(changes)
}

pub fn value_of<S: Store>(rt: &impl Abort, store: &mut S, key: &[u8]) -> Option<Bytes> {
    assert!(rt; store.is_live());
    store.get(key).expect(rt, "read")
}

// The number of keys.
pub fn count<S: Store>(rt: &impl Abort, store: &mut S) -> usize {
    assert!(rt; store.is_live());
    let keys = store.keys_after(None, 20_000).expect(rt, "listed");
    keys.as_slice().len()
}

pub fn reads_as<D: Disk>(rt: &impl Abort, disk: &mut D, bytes: &[u8]) {
    let mut buf = [0u8; 64];
    let count = disk.read_at(0, &mut buf).expect(rt, "read");
    assert_eq!(rt; buf.get(..count), Some(bytes));
}
