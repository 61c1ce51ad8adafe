//! A stop and a single fault at each call of the disk under each message that commits: the base
//! then
//! has what it had before, or what the message makes of it; and what was told is there.
use crate::tools::{disk, numbers, open, serve};
use mem_disk::Pick;
use std::alloc::Global;
use std::process::Abort;
use std::test::Fail;

const PICKS: [Pick; 5] = [
    Pick::Old,
    Pick::New,
    Pick::Mixed(5),
    Pick::Junk(255),
    Pick::Junk(1),
];

// Whether the message was answered, and the epoch and the `seq` that the base has when it is opened
// anew.
fn served(
    rt: &impl Abort,
    alloc: Global,
    message: &str,
    stop_at: u64,
    fails: u64,
    pick: Pick,
) -> Result<(bool, (u64, u64)), Fail> {
    let mut base = open(rt, alloc, disk(rt, alloc, stop_at, fails, pick)?);
    let (done, _) = serve(rt, alloc, &mut base, message)?;
    assert_eq!(rt; base.is_live(), done);
    assert!(rt; base.reopen(alloc).is_ok());
    let found = numbers(rt, alloc, &mut base)?;
    Ok((done, found))
}

// An empty disk is opened in 8 calls, and a commit has the next 4.
fn at_each_call(
    rt: &impl Abort,
    alloc: Global,
    message: &str,
    after: (u64, u64),
    stops: bool,
) -> Result<(), Fail> {
    // Behind them comes the restart, which ends a stop.
    let last = if stops { 14u64 } else { 13 };
    for pick in PICKS {
        for call in 9..last {
            let (stop_at, fails) = if stops { (call, 0) } else { (0, call) };
            let (done, found) = served(rt, alloc, message, stop_at, fails, pick)?;
            assert_eq!(rt; done, call == 13, "{message} {pick:?} {call}");
            assert!(rt; found == after || (!done && found == (0, 0)));
        }
    }
    Ok(())
}

#[test]
fn a_stop_at_each_call(rt: HostRuntime) -> Result<(), Fail> {
    let alloc = rt.alloc();
    at_each_call(&rt, alloc, "fence 2", (2, 0), true)?;
    at_each_call(&rt, alloc, "write 0 1", (0, 1), true)?;
    at_each_call(&rt, alloc, "install 0 4", (0, 4), true)
}

#[test]
fn a_fault_at_each_call(rt: HostRuntime) -> Result<(), Fail> {
    let alloc = rt.alloc();
    at_each_call(&rt, alloc, "fence 2", (2, 0), false)?;
    at_each_call(&rt, alloc, "write 0 1", (0, 1), false)?;
    at_each_call(&rt, alloc, "install 0 4", (0, 4), false)
}
