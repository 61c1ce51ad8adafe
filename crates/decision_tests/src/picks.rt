//! Picks with and without a cursor, of busy, young and warm rows, as a computation row by row gives
//! them.
use crate::tools::DEFAULTS;
use agent_pick::{Chosen, Row as Record, pick};
use agent_state::{EvictMode, FlushMode, Modes};
use obj_model::{Name, PoolValues};
use std::alloc::Global;
use std::process::Abort;
use std::test::Fail;
use test_rows::{Row, name};

// A line `rows` holds the records a, c, e, g, i and k: each clean or dirty, busy or not, the moment
// of its last write, its temperature. Each line below it is a pick among them: the cursor; flush
// mode idle, low or high with evict mode idle, some or full; effort; least age for a flush and for
// an eviction; the moment; what is picked.
const PICKS: &str = "- is 500000 0 0 0 -
- hf 0 0 0 9 -
rows cb 0 0
- is 500000 0 0 0 -
- hf 500000 0 0 0 -
rows c- 0 0
- is 500000 0 0 0 e a
rows c- 10 5 c- 20 1 c- 30 1 c- 40 2 c- 50 9 c- 60 9
- if 1000000 0 0 0 e a
a if 1000000 0 0 0 e c
b if 1000000 0 0 0 e c
e if 1000000 0 0 0 e g
k if 1000000 0 0 0 e a
l if 1000000 0 0 0 e a
z if 1000000 0 0 0 e a
c is 0 0 0 60 -
c is 1 0 0 60 e e
c is 100000 0 0 60 e e
c is 333333 0 0 60 e e
c is 333334 0 0 60 e e
c is 500000 0 0 60 e e
c is 500001 0 0 60 e e
c is 666666 0 0 60 e e
c is 666667 0 0 60 e e
c is 1000000 0 0 60 e e
c is 1000001 0 0 60 e e
c is 18446744073709551615 0 0 60 e e
- is 1000000 0 0 9 -
- is 1000000 0 0 10 e a
- is 1000000 0 5 14 -
- is 1000000 0 5 15 e a
- is 1000000 0 18446744073709551615 18446744073709551615 -
- is 1000000 0 1 18446744073709551615 e a
rows d- 10 0 cb 20 0 db 30 7 c- 40 7 d- 50 3 c- 60 3
b ii 500000 30 30 70 -
- ii 100000 0 0 20 -
b is 500000 30 30 70 -
- is 100000 0 0 20 -
b if 500000 30 30 70 e g
- if 100000 0 0 20 e g
b li 500000 30 30 70 f a
- li 100000 0 0 20 f a
b ls 500000 30 30 70 f a
- ls 100000 0 0 20 f a
b lf 500000 30 30 70 e g
- lf 100000 0 0 20 f a
b hi 500000 30 30 70 f i
- hi 100000 0 0 20 f a
b hs 500000 30 30 70 f i
- hs 100000 0 0 20 f a
b hf 500000 30 30 70 e g
- hf 100000 0 0 20 f a
rows d- 60 4 d- 50 4 db 40 4 d- 30 4 d- 20 4 d- 10 4
c ls 100000 0 0 9 -
a li 100000 0 0 9 -
c ls 100000 0 0 10 f k
a li 100000 0 0 10 f k
c ls 100000 10 0 19 -
a li 100000 10 0 19 -
c ls 100000 10 0 20 f k
a li 100000 10 0 20 f k
c ls 100000 25 0 35 f k
a li 100000 25 0 35 f k
c ls 100000 18446744073709551615 0 18446744073709551615 -
a li 100000 18446744073709551615 0 18446744073709551615 -
rows cb 0 0 db 0 0 cb 0 0 db 0 0 cb 0 0 db 0 0
c ii 1000000 0 0 9 -
c is 1000000 0 0 9 -
c if 1000000 0 0 9 -
c li 1000000 0 0 9 -
c ls 1000000 0 0 9 -
c lf 1000000 0 0 9 -
c hi 1000000 0 0 9 -
c hs 1000000 0 0 9 -
c hf 1000000 0 0 9 -
rows c- 18446744073709551615 18446744073709551615 d- 18446744073709551615 0 \
c- 0 18446744073709551614 d- 1 18446744073709551615 \
c- 18446744073709551614 0 cb 5 5
e ii 1000000 1 1 18446744073709551615 -
e is 1000000 1 1 18446744073709551615 e i
e if 1000000 1 1 18446744073709551615 e i
e li 1000000 1 1 18446744073709551615 f g
e ls 1000000 1 1 18446744073709551615 f g
e lf 1000000 1 1 18446744073709551615 f g
e hi 1000000 1 1 18446744073709551615 f g
e hs 1000000 1 1 18446744073709551615 f g
e hf 1000000 1 1 18446744073709551615 f g
- ls 1 0 0 18446744073709551615 f c
rows c- 0 8 c- 0 7 c- 0 6 c- 0 5 c- 0 4 c- 0 3
- is 0 0 0 0 -
- is 1 0 0 0 e k
- is 100000 0 0 0 e k
- is 333333 0 0 0 e i
- is 333334 0 0 0 e g
- is 500000 0 0 0 e g
- is 500001 0 0 0 e e
- is 666666 0 0 0 e e
- is 666667 0 0 0 e c
- is 1000000 0 0 0 e a
- is 1000001 0 0 0 e a
- is 18446744073709551615 0 0 0 e a";

// The six records of a line.
fn records(alloc: Global, line: &str) -> Result<Vec<Record>, Fail> {
    let mut row = Row::new(line);
    let mut records = Vec::new(alloc);
    for letter in [b'a', b'c', b'e', b'g', b'i', b'k'] {
        if row.is_empty() {
            break;
        }
        let flags = row.word();
        let bytes = Vec::from_slice(alloc, &[letter])?;
        records.push(Record {
            name: Name::new(bytes).ok().ok_or("a name")?,
            dirty: flags.starts_with('d'),
            seq: 1,
            busy: flags.ends_with('b'),
            mtime: row.number()?,
            temperature: row.number()?,
        })?;
    }
    Ok(records)
}

// The modes of two letters, with this effort.
fn modes(letters: &str, effort: u64) -> Modes {
    let flush = match letters.as_bytes().first() {
        Some(b'h') => FlushMode::High,
        Some(b'l') => FlushMode::Low,
        _ => FlushMode::Idle,
    };
    let evict = match letters.as_bytes().last() {
        Some(b'f') => EvictMode::Full,
        Some(b's') => EvictMode::Some,
        _ => EvictMode::Idle,
    };
    Modes {
        flush,
        evict,
        effort,
        ..Modes::idle()
    }
}

// The pool's values with these ages.
fn aged(flush: u64, evict: u64) -> PoolValues {
    PoolValues {
        cache_min_flush_age: flush,
        cache_min_evict_age: evict,
        ..DEFAULTS
    }
}

// Whether this is what the two words say.
fn is_said(records: &[Record], chosen: Chosen, kind: &str, picked: &str) -> bool {
    let (letter, place) = match chosen {
        Chosen::Nothing => return kind == "-",
        Chosen::Evict(place) => ("e", place),
        Chosen::Flush(place) => ("f", place),
    };
    match records.get(place) {
        Some(record) => kind == letter && record.name.bytes() == picked.as_bytes(),
        None => false,
    }
}

// One line's pick.
fn picks(rt: &impl Abort, alloc: Global, records: &[Record], line: &str) -> Result<(), Fail> {
    let mut row = Row::new(line);
    let cursor = row.word();
    let letters = row.word();
    let modes = modes(letters, row.number()?);
    let (flush, evict) = (row.number()?, row.number()?);
    let values = aged(flush, evict);
    let now = row.number()?;
    let chosen = if cursor == "-" {
        pick(records, None, &modes, &values, now)
    } else {
        let cursor = name(alloc, cursor)?;
        pick(records, Some(&cursor), &modes, &values, now)
    };
    let kind = row.word();
    assert!(rt; is_said(records, chosen, kind, row.word()), "{line}");
    Ok(())
}

#[test]
fn behind_the_cursor(rt: HostRuntime) -> Result<(), Fail> {
    let alloc = rt.alloc();
    let mut held = Vec::new(alloc);
    for line in PICKS.lines() {
        match line.strip_prefix("rows ") {
            Some(line) => held = records(alloc, line)?,
            None => picks(&rt, alloc, held.as_slice(), line)?,
        }
    }
    Ok(())
}
