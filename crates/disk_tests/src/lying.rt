//! A store over a disk that tells nothing of its content, and that has other bytes when it is
//! restarted.
use crate::tools::{EMPTY, PAIR, fog, reads_as};
use log_store::LogStore;
use obj_model::Pool;
use std::test::Fail;
use store_face::{Store, StoreFault};

// A disk that is found empty is not formatted, and neither is one of another pair read; nothing is
// written.
#[test]
fn what_is_found_instead_of_the_log(rt: HostRuntime) -> Result<(), Fail> {
    let alloc = rt.alloc();
    let table: [(&[u8], Result<(), StoreFault>); 6] = [
        (EMPTY, Ok(())),
        (b"", Err(StoreFault::BadImage { at: 0 })),
        (b"\0hello", Err(StoreFault::BadImage { at: 0 })),
        (
            b"\x07\0\0\0\x11RTLOG001\x01\0\0\0\0\0\0\x01\x01\0",
            Err(StoreFault::BadImage { at: 0 }),
        ),
        (
            b"\x01\0\0\0\x11RTLOG001\x01\0\0\0\0\0\0\x01\x02\0",
            Err(StoreFault::BadImage { at: 14 }),
        ),
        (
            b"\x01\0\0\0\x11RTLOG001\x02\0\0\0\0\0\0\x01\x01\0",
            Err(StoreFault::BadImage { at: 13 }),
        ),
    ];
    for (found, answer) in table {
        // The log is opened in six calls; the seventh is the restart.
        let disk = fog(&rt, alloc, EMPTY, Some(7), found)?;
        let Ok(mut store) = LogStore::attach(alloc, disk, Pool::Cache, PAIR, 64) else {
            return Err("not opened".into());
        };
        assert_eq!(rt; store.reopen(), answer);
        assert_eq!(rt; store.is_live(), answer.is_ok());
        reads_as(&rt, &mut store.into_disk().into_inner(), EMPTY);
    }
    Ok(())
}
