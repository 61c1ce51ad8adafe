//! A map of 10,000 keys, committed eight at a time and read again.
use crate::tools::{commit, count, memory, open, value_of};
use mem_disk::Pick;
use std::alloc::{AllocError, Global};
use std::process::Abort;
use std::test::Fail;
use store_face::Store;

const KEYS: u32 = 10_000;

// Behind others, the change that puts a number's last two bytes under its four.
fn put_number(out: &mut Vec<u8>, number: u32) -> Result<(), AllocError> {
    let key = number.to_be_bytes();
    out.extend_from_slice(b"\x01\0\x04")?;
    out.extend_from_slice(&key)?;
    out.extend_from_slice(b"\0\0\0\x02")?;
    out.extend_from_slice(&key[2..])?;
    Ok(())
}

// The transaction of eight numbers.
fn eight(alloc: Global, first: u32) -> Result<Vec<u8>, AllocError> {
    let mut out = Vec::with_capacity(alloc, 128)?;
    out.extend_from_slice(b"\x08")?;
    for more in 0..8u32 {
        put_number(&mut out, first.saturating_add(more))?;
    }
    Ok(out)
}

fn fill<S: Store>(rt: &impl Abort, alloc: Global, store: &mut S) -> Result<(), Fail> {
    let mut first = 0u32;
    for _ in 0..KEYS / 8 {
        let bytes = eight(alloc, first)?;
        assert_eq!(rt; commit(rt, alloc, store, bytes.as_slice()), Ok(()));
        first = first.saturating_add(8);
    }
    Ok(())
}

fn has_all<S: Store>(rt: &impl Abort, store: &mut S) {
    assert_eq!(rt; count(rt, store), KEYS as usize);
    for number in 0..KEYS {
        let key = number.to_be_bytes();
        let value = value_of(rt, store, &key).expect(rt, "there");
        assert_eq!(rt; value.as_slice(), &key[2..]);
    }
}

#[test]
fn a_large_map_is_read_again(rt: HostRuntime) -> Result<(), Fail> {
    let alloc = rt.alloc();
    let disk = memory(&rt, alloc, b"", None, Pick::Old)?;
    let mut store = open(&rt, alloc, disk, 1 << 20);
    fill(&rt, alloc, &mut store)?;
    has_all(&rt, &mut store);
    assert_eq!(rt; store.reopen(), Ok(()));
    has_all(&rt, &mut store);
    Ok(())
}
