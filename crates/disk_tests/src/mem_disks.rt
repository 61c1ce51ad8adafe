//! What the rules of picks, failed calls and stops leave, worked by hand.
use crate::tools::{failing, fog};
use mem_disk::{MemDisk, Pick};
use std::process::Abort;
use std::test::Fail;
use tier_outside::{Disk, DiskFault};

// The disk reads as these bytes.
fn reads(rt: &impl Abort, disk: &mut MemDisk, want: &[u8]) {
    let mut buf = [0u8; 16];
    let count = disk.read_at(0, &mut buf).expect(rt, "read");
    assert!(rt; &buf[..count] == want, "wanted {want:?}");
    assert_eq!(rt; disk.size(), Ok(want.len() as u64));
}

// A restart leaves these bytes.
fn leaves(rt: &impl Abort, disk: &mut MemDisk, want: &[u8]) {
    assert_eq!(rt; disk.restart(), Ok(()));
    reads(rt, disk, want);
}

#[test]
fn a_pick_settles_each_byte(rt: HostRuntime) -> Result<(), Fail> {
    let alloc = rt.alloc();
    // A write of four bytes at offset 6 of 8: the bytes from 6 to 9 are not settled.
    let written: [(Pick, &[u8]); 5] = [
        (Pick::Old, b"abcdefgh"),
        (Pick::New, b"abcdefWXYZ"),
        (Pick::Mixed(0x140), b"abcdefWhY\0"),
        (Pick::Mixed(5), b"abcdefgh\0\0"),
        (Pick::Junk(255), b"abcdef\xff\xff\xff\xff"),
    ];
    for (pick, want) in written {
        let mut disk = failing(&rt, alloc, b"abcdefgh", &[], None, pick)?;
        assert_eq!(rt; disk.write_at(6, b"WXYZ"), Ok(()));
        reads(&rt, &mut disk, b"abcdefWXYZ");
        leaves(&rt, &mut disk, want);
        leaves(&rt, &mut disk, want);
    }
    // A cut to 4 and a write of two bytes at 5: nothing from 4 on is settled, and byte 4 was never
    // written.
    let cut: [(Pick, &[u8]); 4] = [
        (Pick::Old, b"abcdefgh"),
        (Pick::New, b"abcd\0XY"),
        (Pick::Mixed(0x20), b"abcdeXg"),
        (Pick::Junk(7), b"abcd\x07\x07\x07"),
    ];
    for (pick, want) in cut {
        let mut disk = failing(&rt, alloc, b"abcdefgh", &[], None, pick)?;
        assert_eq!(rt; disk.cut(4), Ok(()));
        assert_eq!(rt; disk.write_at(5, b"XY"), Ok(()));
        reads(&rt, &mut disk, b"abcd\0XY");
        leaves(&rt, &mut disk, want);
    }
    Ok(())
}

#[test]
fn a_failed_call_does_half_or_nothing(rt: HostRuntime) -> Result<(), Fail> {
    let alloc = rt.alloc();
    let mut disk = failing(
        &rt,
        alloc,
        b"abcdefgh",
        &[1, 4, 7, 10, 12, 14, 16],
        None,
        Pick::Old,
    )?;
    let mut buf = [0u8; 16];
    assert_eq!(rt; disk.write_at(0, b"wxyz"), Err(DiskFault));
    reads(&rt, &mut disk, b"wxcdefgh");
    assert_eq!(rt; disk.cut(2), Err(DiskFault));
    reads(&rt, &mut disk, b"wxcde");
    assert_eq!(rt; disk.cut(9), Err(DiskFault));
    reads(&rt, &mut disk, b"wxcde\0\0");
    assert_eq!(rt; disk.read_at(0, &mut buf), Err(DiskFault));
    assert_eq!(rt; disk.read_at(0, &mut buf), Ok(7));
    assert_eq!(rt; disk.size(), Err(DiskFault));
    assert_eq!(rt; disk.size(), Ok(7));
    assert_eq!(rt; disk.sync(), Err(DiskFault));
    assert_eq!(rt; disk.write_at(0, b""), Ok(()));
    assert_eq!(rt; disk.restart(), Err(DiskFault));
    reads(&rt, &mut disk, b"wxcde\0\0");
    leaves(&rt, &mut disk, b"abcdefgh");
    assert_eq!(rt; disk.starved(), 0);
    Ok(())
}

#[test]
fn a_stop_happens_once(rt: HostRuntime) -> Result<(), Fail> {
    let alloc = rt.alloc();
    let mut disk = failing(&rt, alloc, b"abcd", &[6], Some(3), Pick::New)?;
    assert_eq!(rt; disk.restart(), Ok(()));
    assert_eq!(rt; disk.write_at(0, b"wx"), Ok(()));
    assert_eq!(rt; disk.write_at(2, b"yz"), Err(DiskFault));
    assert_eq!(rt; disk.write_at(0, b"1234"), Err(DiskFault));
    assert_eq!(rt; disk.sync(), Err(DiskFault));
    assert_eq!(rt; disk.restart(), Err(DiskFault));
    assert_eq!(rt; disk.size(), Err(DiskFault));
    leaves(&rt, &mut disk, b"wxyd");
    assert_eq!(rt; disk.sync(), Ok(()));
    // A restart at the call where the stop begins works, and ends it.
    let mut disk = failing(&rt, alloc, b"abcd", &[], Some(1), Pick::Old)?;
    assert_eq!(rt; disk.restart(), Ok(()));
    assert_eq!(rt; disk.size(), Ok(4));
    // The past takes no memory, and a sync costs what was written.
    for turn in 0..100_000u64 {
        assert_eq!(rt; disk.write_at(turn % 8, b"cd"), Ok(()));
        assert_eq!(rt; disk.sync(), Ok(()));
    }
    reads(&rt, &mut disk, b"ccccccccd");
    Ok(())
}

// A write of the bytes that stood there is a write: what a stop leaves of them is not settled.
#[test]
fn the_same_bytes_are_unsettled_too(rt: HostRuntime) -> Result<(), Fail> {
    let alloc = rt.alloc();
    let mut disk = failing(&rt, alloc, b"abcd", &[], None, Pick::Junk(b'x'))?;
    assert_eq!(rt; disk.write_at(1, b"bc"), Ok(()));
    reads(&rt, &mut disk, b"abcd");
    leaves(&rt, &mut disk, b"axxd");
    Ok(())
}

// The other bytes come from the third call on, whatever is written, and the faults are those of the
// disk below.
#[test]
fn a_disk_in_fog_has_other_bytes_from_a_call_on(rt: HostRuntime) -> Result<(), Fail> {
    let alloc = rt.alloc();
    let mut disk = fog(&rt, alloc, b"abcdef", Some(3), b"xy")?;
    let mut buf = [0u8; 4];
    assert_eq!(rt; disk.size(), Ok(6));
    assert_eq!(rt; (disk.read_at(2, &mut buf), buf), (Ok(4), *b"cdef"));
    assert_eq!(rt; (disk.read_at(1, &mut buf), buf[0]), (Ok(1), b'y'));
    assert_eq!(rt; disk.write_at(0, b"z"), Ok(()));
    assert_eq!(rt; (disk.size(), disk.read_at(2, &mut buf)), (Ok(2), Ok(0)));
    let mut inner = disk.into_inner();
    reads(&rt, &mut inner, b"zbcdef");
    Ok(())
}
