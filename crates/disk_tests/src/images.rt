//! What the first bytes of disks say, and what formatting leaves, over the disk in memory.
use crate::tools::{EMPTY, memory, reads_as};
use log_image::{Front, finish_format, format_log, look_at_head};
use mem_disk::Pick;
use obj_model::Pool;
use std::process::Abort;
use std::test::Fail;
use tier_outside::Disk;

// Restarts a disk, and formats it or ends its formatting where it is empty; was that done, or was
// there nothing to do?
fn open<D: Disk>(rt: &impl Abort, disk: &mut D, pair: u64) -> bool {
    if disk.restart().is_err() {
        return false;
    }
    match look_at_head(disk, Pool::Cache) {
        Ok(Front::Blank { zeroed }) => format_log(disk, Pool::Cache, pair, zeroed).is_ok(),
        Ok(Front::HalfOpen { pair: found }) => {
            assert_eq!(rt; found, pair);
            finish_format(disk, Pool::Cache, found).is_ok()
        }
        Ok(Front::Headed { pair: found }) => found == pair,
        Ok(Front::Bad { .. }) | Err(_) => false,
    }
}

#[test]
fn an_empty_disk_becomes_a_log(rt: HostRuntime) -> Result<(), Fail> {
    let alloc = rt.alloc();
    let half: &[u8] = b"\x07\0\0\0\x11RTLOG001\x01\0\0\0\0\0\0\x01\x01\0";
    let empty: [&[u8]; 6] = [b"", b"\0", b"\x01", b"x", b"\0\x01\x02", half];
    for bytes in empty {
        let mut disk = memory(&rt, alloc, bytes, None, Pick::Old)?;
        assert!(rt; open(&rt, &mut disk, 257));
        reads_as(&rt, &mut disk, EMPTY);
        assert_eq!(rt;
            look_at_head(&mut disk, Pool::Cache),
            Ok(Front::Headed { pair: 257 })
        );
    }
    Ok(())
}

#[test]
fn bytes_behind_a_log_stay(rt: HostRuntime) -> Result<(), Fail> {
    let alloc = rt.alloc();
    let mut disk = memory(&rt, alloc, b"\0aaaaaaaaaaaaaaaaaaaaaabb", None, Pick::Old)?;
    assert!(rt; open(&rt, &mut disk, 257));
    reads_as(
        &rt,
        &mut disk,
        b"\x01\0\0\0\x11RTLOG001\x01\0\0\0\0\0\0\x01\x01\0bb",
    );
    Ok(())
}

#[test]
fn a_stop_at_each_call_leaves_it_empty_or_whole(rt: HostRuntime) -> Result<(), Fail> {
    let alloc = rt.alloc();
    // The restart and the look are the first two calls, and each step is a write and a sync.
    for stop in 2..10u64 {
        for pick in [Pick::Old, Pick::New] {
            let mut disk = memory(&rt, alloc, b"", Some(stop), pick)?;
            assert_eq!(rt; open(&rt, &mut disk, 257), stop == 9);
            assert!(rt; open(&rt, &mut disk, 257));
            assert!(rt; open(&rt, &mut disk, 257));
            reads_as(&rt, &mut disk, EMPTY);
        }
    }
    Ok(())
}

#[test]
fn a_bad_head_is_told_at_its_place(rt: HostRuntime) -> Result<(), Fail> {
    let alloc = rt.alloc();
    let bad: [(&[u8], u64); 8] = [
        (b"\x02\0\0\0\x11RTLOG001\x02\0\0\0\0\0\0\x01\x01\0", 0),
        (b"xy", 0),
        (b"\x01\0", 1),
        (b"\x01\0\0\0\x12RTLOG001\x02\0\0\0\0\0\0\x01\x01\0", 1),
        (b"\x01\0\0\0\x11RTLOG00", 5),
        (b"\x01\0\0\0\x11RTLOG002\x02\0\0\0\0\0\0\x01\x01\0", 5),
        (b"\x01\0\0\0\x11RTLOG001\x02\0\0\0\0\0\0\x01\x01\0", 13),
        (b"\x01\0\0\0\x11RTLOG001\x01\0\0\0\0\0\0\x01", 0),
    ];
    for (bytes, at) in bad {
        let mut disk = memory(&rt, alloc, bytes, None, Pick::Old)?;
        assert_eq!(rt; look_at_head(&mut disk, Pool::Cache), Ok(Front::Bad { at }));
        assert!(rt; !open(&rt, &mut disk, 257));
        reads_as(&rt, &mut disk, bytes);
    }
    let mut base = memory(&rt, alloc, EMPTY, None, Pick::Old)?;
    assert_eq!(rt;
        look_at_head(&mut base, Pool::Base),
        Ok(Front::Bad { at: 13 })
    );
    Ok(())
}
