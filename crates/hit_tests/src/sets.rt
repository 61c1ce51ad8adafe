//! Hit sets: places of names, and how many insertions make a set full. Both are from another
//! program of the same definition.
use crate::tools::{kind, numbered};
use hit_sets::{HitSet, bloom_place};
use std::alloc::Global;
use std::process::Abort;
use std::test::Fail;
use test_rows::{Row, name};

// A rate of false positives, a name, and its places, which are all that it has.
const PLACES: &str = "\
50000 a 15500 22745 1318 8563
7 a 15500 22745 1318 8563
50000 foobar 14312 10585 6858 3131
10000 a 19596 10457 1318 33139 24000 14861 5722
1000 a 60556 10457 21798 33139 44480 55821 5722 17063 28404 39745";

// One line of places.
fn has_places(rt: &impl Abort, alloc: Global, line: &str) -> Result<(), Fail> {
    let mut row = Row::new(line);
    let fpp = row.small()?;
    let name = name(alloc, row.word())?;
    for rank in 0..11u32 {
        let place = if row.is_empty() {
            None
        } else {
            Some(row.number()?)
        };
        assert_eq!(rt; bloom_place(fpp, &name, rank), place, "{line}");
    }
    Ok(())
}

#[test]
fn bloom_places(rt: HostRuntime) -> Result<(), Fail> {
    for line in PLACES.lines() {
        has_places(&rt, rt.alloc(), line)?;
    }
    Ok(())
}

// Inserts n0 and so on into the set until 4,097 insertions have changed it, and answers after how
// many insertions it was full.
fn filled(rt: &impl Abort, alloc: Global, set: &mut HitSet) -> Result<u64, Fail> {
    let mut changes = 0u64;
    let mut full = 0u64;
    for number in 0..4_200u64 {
        if changes == 4_097 {
            break;
        }
        let name = numbered(alloc, "n", number)?;
        let was = set.contains(&name);
        let changed = set.insert(&name).ok().ok_or("memory")?;
        assert!(rt; changed != was && set.contains(&name), "{number}");
        changes = changes.saturating_add(u64::from(changed));
        assert_eq!(rt; set.is_full(), changes >= 4_096, "{number}");
        if changes <= 4_096 {
            full = number.saturating_add(1);
        }
    }
    assert_eq!(rt; changes, 4_097);
    Ok(full)
}

// How many of q0 to q1999 the set contains.
fn found(alloc: Global, set: &HitSet) -> Result<u64, Fail> {
    let mut found = 0u64;
    for number in 0..2_000u64 {
        let name = numbered(alloc, "q", number)?;
        found = found.saturating_add(u64::from(set.contains(&name)));
    }
    Ok(found)
}

// A kind, after how many insertions its set is full, and how many other names it then contains.
const FULL: &str = "\
hash 4096 0
object 4096 0
50000 4119 67
10000 4101 13
1000 4101 2";

#[test]
fn more_insertions_than_make_a_set_full(rt: HostRuntime) -> Result<(), Fail> {
    let alloc = rt.alloc();
    for line in FULL.lines() {
        let mut row = Row::new(line);
        let mut set = HitSet::new(alloc, kind(row.word()), 5)
            .ok()
            .ok_or("memory")?;
        assert_eq!(rt; set.start(), 5);
        assert_eq!(rt; filled(&rt, alloc, &mut set)?, row.number()?, "{line}");
        assert_eq!(rt; found(alloc, &set)?, row.number()?, "{line}");
    }
    Ok(())
}
