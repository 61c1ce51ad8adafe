//! Archives of hit sets: what a touch tells, recency and temperature.
use crate::tools::{kind, numbered};
use hit_archive::{HitArchive, Touch};
use hit_sets::HitKind;
use std::alloc::Global;
use std::process::Abort;
use std::test::Fail;
use test_rows::{Row, name};

// What an archive tells, line by line. `new COUNT PERIOD START` makes it; `touch NAME NOW` with
// whether the name was in and whether a set was sealed; `met NAME WAS_IN RECENCY` and whether it
// is; `warm NAME LAST DECAY` and the temperature.
const LINES: &str = "\
new 2 10 0
met a 0 0 1
met a 0 1 0
met a 1 1 1
met a 1 2 0
warm a 2 20 0
touch a 0 0 0
touch a 9 1 0
warm a 2 20 1000000
met a 1 1 1
met a 1 2 0
touch a 10 0 1
met a 1 2 1
met a 0 2 0
met b 1 2 0
met a 1 3 0
warm a 2 20 1800000
touch a 25 0 1
met a 1 3 1
met a 1 4 0
warm a 2 20 2440000
warm b 2 20 0
touch b 34 0 0
touch b 35 0 1
met a 1 3 1
met a 1 4 0
met b 1 2 1
met b 1 3 0
met b 1 0 1
warm a 9 20 1440000
new 0 1 0
touch a 0 0 0
touch a 9 0 0
met a 0 0 1
met a 0 1 0
warm a 64 0 0
new 1 10 18446744073709551610
touch a 18446744073709551615 0 0
new 1 5 18446744073709551610
touch a 18446744073709551610 0 0
touch b 18446744073709551615 0 1
new 1 0 7
touch a 7 0 1
touch a 7 0 1
new 4 1 0
touch a 0 0 0
touch a 1 0 1
touch a 2 0 1
touch a 3 0 1
touch a 4 0 1
touch a 5 0 1
warm a 0 33 1000000
warm a 1 33 1670000
warm a 2 33 2118900
warm a 3 33 2419663
warm a 4 33 2621174
warm a 5 33 2621174
warm a 64 0 5000000
warm a 64 100 1000000
warm a 64 101 1000000
warm a 64 99 1010101
warm a 4294967295 1 4900995";

// One line that asks the archive, and whether what it tells is what the line says.
fn is_told(alloc: Global, archive: &mut HitArchive, line: &str) -> Result<bool, Fail> {
    let mut row = Row::new(line);
    let asked = row.word();
    let name = name(alloc, row.word())?;
    match asked {
        "touch" => {
            let told = archive.touch(&name, row.number()?).ok().ok_or("memory")?;
            let was_in = row.flag()?;
            let sealed = row.flag()?;
            Ok(told == Touch { was_in, sealed })
        }
        "met" => {
            let was_in = row.flag()?;
            let met = archive.recency_met(&name, was_in, row.small()?);
            Ok(met == row.flag()?)
        }
        _ => {
            let last = row.small()?;
            let warm = archive.temperature(&name, last, row.small()?);
            Ok(warm == row.number()?)
        }
    }
}

// The archive that a line makes.
fn archive(alloc: Global, kind: HitKind, line: &str) -> Result<HitArchive, Fail> {
    let mut row = Row::new(line);
    let count = row.small()?;
    let period = row.number()?;
    let start = row.number()?;
    Ok(
        HitArchive::new(alloc, kind, count, period, start)
            .ok()
            .ok_or("memory")?,
    )
}

#[test]
fn each_kind_tells_the_same(rt: HostRuntime) -> Result<(), Fail> {
    let alloc = rt.alloc();
    for word in ["hash", "object", "50000", "10000", "1000"] {
        let mut held = archive(alloc, kind(word), "1 1 0")?;
        for line in LINES.lines() {
            match line.strip_prefix("new ") {
                Some(line) => held = archive(alloc, kind(word), line)?,
                None => assert!(rt; is_told(alloc, &mut held, line)?, "{word} {line}"),
            }
        }
    }
    Ok(())
}

#[test]
fn a_full_set_is_sealed_before_its_period(rt: HostRuntime) -> Result<(), Fail> {
    let alloc = rt.alloc();
    let mut held = archive(alloc, HitKind::ExplicitObject, "1 1000 0")?;
    for number in 0..4_096u64 {
        let name = numbered(alloc, "n", number)?;
        let touch = held.touch(&name, 0).ok().ok_or("memory")?;
        assert!(rt; !touch.was_in && !touch.sealed, "{number}");
    }
    assert!(rt; is_told(alloc, &mut held, "touch a 0 0 1")?);
    assert!(rt; is_told(alloc, &mut held, "warm n0 1 20 800000")?);
    Ok(())
}
