//! Messages one after another: their answers, and the epoch and the `seq` after each.
use crate::tools::{attach, commit, disk, log, numbers, open, serve};
use mem_disk::Pick;
use std::fmt::Write;
use std::test::Fail;

// A message, its answer, and the epoch and the `seq` then.
const ROWS: &str = r#"look 1 => NotFenced { have: 0, got: 1 } => 0 0
fence 2 => Fenced { epoch: 2 } => 2 0
write 1 1 => OldEpoch { have: 2, got: 1 } => 2 0
look 3 => NotFenced { have: 2, got: 3 } => 2 0
fence 1 => OldEpoch { have: 2, got: 1 } => 2 0
fence 2 => Fenced { epoch: 2 } => 2 0
install 2 2 => Installed { epoch: 2, opid: 5, seq: 2 } => 2 2
install 2 1 => Installed { epoch: 2, opid: 5, seq: 1 } => 2 2
install 2 2 => Installed { epoch: 2, opid: 5, seq: 2 } => 2 2
write 2 6 => Wrote { epoch: 2, opid: 5, acted: Fresh(Done { ver: 1 }) } => 2 3
write 2 6 => Wrote { epoch: 2, opid: 5, acted: Again(Done { ver: 1 }) } => 2 3
write 2 5 => Wrote { epoch: 2, opid: 5, acted: Stale { kept: 6 } } => 2 3
install 2 3 => Installed { epoch: 2, opid: 5, seq: 3 } => 2 3
fence 4611686018427387905 => Store(Worn { limit: 4611686018427387904 }) => 2 3
fence 4611686018427387904 => Fenced { epoch: 4611686018427387904 } => 4611686018427387904 3
write 2 7 => OldEpoch { have: 4611686018427387904, got: 2 } => 4611686018427387904 3"#;

#[test]
fn messages_one_after_another(rt: HostRuntime) -> Result<(), Fail> {
    let alloc = rt.alloc();
    let mut base = open(&rt, alloc, disk(&rt, alloc, 0, 0, Pick::Old)?);
    let mut rows = 0u32;
    for line in ROWS.lines() {
        let (message, rest) = line.split_once(" => ").ok_or("a row")?;
        let (answer, after) = rest.split_once(" => ").ok_or("a row")?;
        let (_, told) = serve(&rt, alloc, &mut base, message)?;
        let (epoch, seq) = numbers(&rt, alloc, &mut base)?;
        let mut shown = String::new(alloc);
        write!(&mut shown, "{epoch} {seq}")?;
        assert_eq!(rt; told.as_str(), answer, "{message}");
        assert_eq!(rt; shown.as_str(), after, "{message}");
        rows = rows.saturating_add(1);
    }
    assert_eq!(rt; rows, 16);
    Ok(())
}

// What a base answers whose value of the name `a` spells nothing.
const DAMAGED: &str = r#"look 0 => BadRecord { name: Name { bytes: Bytes { bytes: [97] } } }
chunk 0 => BadRecord { name: Name { bytes: Bytes { bytes: [97] } } }
write 0 1 => BadRecord { name: Name { bytes: Bytes { bytes: [97] } } }
install 0 9 => BadRecord { name: Name { bytes: Bytes { bytes: [97] } } }
look 1 => NotFenced { have: 0, got: 1 }
fence 1 => Fenced { epoch: 1 }
look 0 => OldEpoch { have: 1, got: 0 }"#;

#[test]
fn a_damaged_state_is_told(rt: HostRuntime) -> Result<(), Fail> {
    let alloc = rt.alloc();
    let mut store = log(&rt, alloc, disk(&rt, alloc, 0, 0, Pick::Old)?);
    commit(&rt, alloc, &mut store, b"\x01\x01\0\x02Na\0\0\0\x01x");
    let mut base = attach(&rt, alloc, store).ok().ok_or("attached")?;
    for line in DAMAGED.lines() {
        let (message, answer) = line.split_once(" => ").ok_or("a row")?;
        let (_, told) = serve(&rt, alloc, &mut base, message)?;
        assert_eq!(rt; told.as_str(), answer, "{message}");
    }
    Ok(())
}

#[test]
fn a_damaged_epoch_is_told(rt: HostRuntime) -> Result<(), Fail> {
    let alloc = rt.alloc();
    let mut store = log(&rt, alloc, disk(&rt, alloc, 0, 0, Pick::Old)?);
    commit(
        &rt,
        alloc,
        &mut store,
        b"\x01\x01\0\x01E\0\0\0\x08\0\0\0\0\0\0\0\0",
    );
    let mut told = String::new(alloc);
    match attach(&rt, alloc, store) {
        Ok(_) => told.push_str("attached")?,
        Err(fault) => write!(&mut told, "{fault:?}")?,
    }
    assert_eq!(rt;
        told.as_str(),
        "BadRecord { name: Name { bytes: Bytes { bytes: [69] } } }"
    );
    Ok(())
}
