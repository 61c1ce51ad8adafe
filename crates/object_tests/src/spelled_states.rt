//! States and records of the cache whose bytes, and what they spell, were worked out by hand.
use crate::requests::show_state;
use crate::spelled::{
    Kind, changed_spells, changes_hold, hex, is_whole, put_all, rows_hold, spells, text_is_whole,
};
use crate::tools::{agree, given, holds, number, some, words};
use rec_codec::{read_state, read_tier};
use std::alloc::Global;
use std::process::Abort;
use std::test::Fail;

// What a first `writefull` of "abc" by client 1 with tid 1 leaves.
const FIRST: &str = "0000000000000001 0000000000000001 01 00000003 616263 0000 0000
    0001 0001 0000000000000001 01 0000000000000001";

// No object, seq 2, and two refused requests: of client 1 with tid 5, noent at 0; of client 256
// with tid 2^62, toobig 1048576 1048577 at 15.
const REFUSED: &str = "0000000000000000 0000000000000002 00
    0002 0001 0000000000000005 02 00 02 0000000000000000
    0100 4000000000000000 02 0f 07 0000000000100000 0000000000100001 0000000000000000";

// An empty body, the attributes a of "x" and b of nothing, the omap entry ~ of "y".
const TABLES: &str = "0000000000000001 0000000000000001 01 00000000
    0002 01 61 00000001 78 01 62 00000000 0001 01 7e 00000001 79 0000";

#[test]
fn worked_states(rt: HostRuntime) -> Result<(), Fail> {
    let alloc = rt.alloc();
    text_is_whole(&rt, alloc, Kind::State, FIRST)?;
    text_is_whole(&rt, alloc, Kind::State, REFUSED)?;
    text_is_whole(&rt, alloc, Kind::State, TABLES)
}

// What the state that digits spell shows.
fn shown(alloc: Global, text: &str) -> Result<String, Fail> {
    let bytes = hex(alloc, text)?;
    let state = some(
        given(read_state(alloc, bytes.as_slice()), "memory")?,
        "a state",
    )?;
    show_state(alloc, &state)
}

#[test]
fn first_state(rt: HostRuntime) -> Result<(), Fail> {
    let found = shown(rt.alloc(), FIRST)?;
    agree(&rt, FIRST, found.as_str(), "abc|| v1 @1 1:1 done v1");
    Ok(())
}

#[test]
fn refused_requests(rt: HostRuntime) -> Result<(), Fail> {
    let found = shown(rt.alloc(), REFUSED)?;
    let want = "none v0 @2 1:5 refused 0 noent v0 256:4611686018427387904 \
        refused 15 toobig 1048576 1048577 v0";
    agree(&rt, REFUSED, found.as_str(), want);
    Ok(())
}

// With 00, 01 and ff at each place of the first state, eight places a row: y where that spells a
// state, n where not. `ver` is above `seq` but for 0 and 1; `seq` is below `ver` where its last
// byte is 0, and above 2^62 where its first is ff; the tag 0 leaves bytes over, and ff means
// nothing; of the body's lengths 0 and 1 make two bytes of "abc" the number of attributes, and all
// others are more than what is left; there are too many attributes or entries, or the first has a
// key of no bytes; 0 kept requests leave bytes over, and with more than 1 the second is not there;
// 0, 257 and 65281 are no clients; the tid is above 2^62 where its first byte is ff; the tags 0 and
// ff of a reply mean nothing.
const FIRST_VERDICTS: &str = "yyyyyyyy nnnnnnny nnnnnnnn
yyyyyyyn yyyyyyyy nyyyyyyy
nyyynyyy ynnnnyyy nnnnnyyy
yyyyynyn nnnnnyny nnnnnnny
yyyyyyyy yyyyyyyy nyyyyyyy
nyyyyyyy yyyyyyyy nyyyyyyy
y y y";

// One row of verdicts: with this byte at each place from the first one on.
fn verdicts_hold(
    alloc: Global,
    first: &[u8],
    from: usize,
    byte: u8,
    verdicts: &str,
) -> Result<bool, Fail> {
    for (at, verdict) in verdicts.bytes().enumerate() {
        let place = from.saturating_add(at);
        if changed_spells(alloc, Kind::State, first, place, byte)? != (verdict == b'y') {
            return Ok(false);
        }
    }
    Ok(true)
}

// A row: with 0, 1 and 255 at these places.
fn bytes_hold(
    rt: &impl Abort,
    alloc: Global,
    first: &[u8],
    from: usize,
    row: &str,
) -> Result<(), Fail> {
    let (zero, rest) = words(row);
    let (one, last) = words(rest);
    holds(rt, row, verdicts_hold(alloc, first, from, 0, zero)?);
    holds(rt, row, verdicts_hold(alloc, first, from, 1, one)?);
    holds(rt, row, verdicts_hold(alloc, first, from, 255, last)?);
    Ok(())
}

#[test]
fn each_byte_of_the_first(rt: HostRuntime) -> Result<(), Fail> {
    let first = hex(rt.alloc(), FIRST)?;
    let mut from = 0usize;
    for row in FIRST_VERDICTS.lines() {
        bytes_hold(&rt, rt.alloc(), first.as_slice(), from, row)?;
        from = from.saturating_add(8);
    }
    holds(&rt, "56 places", from == 56);
    Ok(())
}

const REFUSED_CHANGES: &str = "16 1 n an object of 131073 bytes
17 2 n 514 kept requests
18 1 n one kept request, and bytes that are left
18 3 n a third that is not there
20 0 n client 0
20 255 y client 255 before client 256
29 0 n no tag of a reply
29 3 n no tag of a reply
30 15 y refused at 15
30 16 n refused at 16
31 0 n no reason
31 6 y overflow
31 8 n no reason
40 0 n client 0 behind client 1
41 1 n client 257
42 65 n tid above 2^62
53 1 y another limit";

const TABLES_CHANGES: &str = "20 1 n a body of one byte, and 512 attributes
22 1 n one attribute, and 354 entries
22 3 n a third attribute without a key
24 32 n no byte of a name
24 59 n a semicolon
24 45 n a single dash
24 98 n the key b twice
24 99 n the key c before b
24 33 y the key ! before b
26 1 n a value longer than what is left
28 0 n no value, and a key of 120 bytes
31 97 n the key a twice
31 126 y the key ~ behind a
31 127 n no byte of a name
46 1 n a kept request that is not there";

#[test]
fn changed_bytes(rt: HostRuntime) -> Result<(), Fail> {
    let alloc = rt.alloc();
    changes_hold(&rt, alloc, Kind::State, REFUSED, REFUSED_CHANGES)?;
    changes_hold(&rt, alloc, Kind::State, TABLES, TABLES_CHANGES)
}

// Records: the unknown state, clean at 0 and dirty at 258; then what is no record.
const TIERS: &str = "y 0000000000000000 0000000000000000 00 0000 00 0000000000000000
y 0000000000000000 0000000000000000 00 0000 01 0000000000000102
y 0000000000000000 0000000000000000 00 0000 01 ffffffffffffffff
n 0000000000000000 0000000000000000 00 0000 02 0000000000000102, dirty 2
n 0000000000000000 0000000000000000 00 0000 ff 0000000000000102, dirty 255
n 0000000000000000 0000000000000000 00 0000 01 00000000000001, a byte of the moment is missing
n 0000000000000001 0000000000000000 00 0000 01 0000000000000102, ver above seq
n 0000000000000000 0000000000000000 00 0000, a state alone
n 01 0000000000000102, no state";

// The first state, dirty at 515.
fn first_record(alloc: Global) -> Result<Vec<u8>, Fail> {
    let mut bytes = hex(alloc, FIRST)?;
    bytes.extend_from_slice(&[1, 0, 0, 0, 0, 0, 0, 2, 3])?;
    Ok(bytes)
}

// The seq of a record, whether it is dirty, and its moment.
fn record_of(alloc: Global, bytes: &[u8]) -> Result<(u64, bool, u64), Fail> {
    let found = given(read_tier(alloc, bytes), "memory")?;
    let (state, dirty, mtime) = some(found, "a record")?;
    Ok((state.seq, dirty, mtime))
}

#[test]
fn records_of_the_cache(rt: HostRuntime) -> Result<(), Fail> {
    let alloc = rt.alloc();
    rows_hold(&rt, alloc, Kind::Tier, TIERS)?;
    let bytes = first_record(alloc)?;
    is_whole(&rt, alloc, Kind::Tier, bytes.as_slice())?;
    let (seq, dirty, mtime) = record_of(alloc, bytes.as_slice())?;
    holds(&rt, "the record", seq == 1 && dirty && mtime == 515);
    Ok(())
}

// The pair at this place, with a value of so many bytes, whose key is as long as a name may be.
fn put_pair(bytes: &mut Vec<u8>, place: u16, len: u16) -> Result<(), Fail> {
    let low = (place % 64) as u8;
    let high = (place / 64 % 32) as u8;
    bytes.push(255)?;
    put_all(bytes, b'a', 253)?;
    bytes.extend_from_slice(&[b'A' + high, b'<' + low])?;
    bytes.extend_from_slice(&u32::from(len).to_be_bytes())?;
    put_all(bytes, 7, u64::from(len))
}

// So many such pairs.
fn put_pairs(bytes: &mut Vec<u8>, count: u16, len: u16) -> Result<(), Fail> {
    bytes.extend_from_slice(&count.to_be_bytes())?;
    for place in 0..count {
        put_pair(bytes, place, len)?;
    }
    Ok(())
}

// A request of each client from 1, refused as these bytes say.
fn put_refusals(bytes: &mut Vec<u8>, count: u16, refused: &[u8]) -> Result<(), Fail> {
    bytes.extend_from_slice(&count.to_be_bytes())?;
    for place in 0..count {
        bytes.extend_from_slice(&place.saturating_add(1).to_be_bytes())?;
        bytes.extend_from_slice(refused)?;
    }
    Ok(())
}

// A request of each client from 1, with the tid 2^62, refused for its size.
fn put_requests(alloc: Global, bytes: &mut Vec<u8>, count: u16) -> Result<(), Fail> {
    let refused = hex(alloc, REFUSED)?;
    put_refusals(bytes, count, &refused[refused.len().min(42)..])
}

// Bytes of the body, attributes, entries, bytes of each value, clients, and whether that is a
// state.
const SIZES: &str = "1048576 64 1024 4096 256 y
1048577 1 1 1 1 n
1 65 1 1 1 n
1 1 1025 1 1 n
1 1 0 4097 1 n
1 0 1 4097 1 n
1 1 1 1 257 n";

// A number of two bytes in decimal digits.
fn small(word: &str) -> Result<u16, Fail> {
    given(word.parse::<u16>(), "a number")
}

// Puts a body of so many bytes.
fn put_body(bytes: &mut Vec<u8>, size: u64) -> Result<(), Fail> {
    let size = size.min(2_000_000);
    bytes.extend_from_slice(&(size as u32).to_be_bytes())?;
    put_all(bytes, 9, size)
}

// Puts what these sizes say.
fn put_sized(alloc: Global, bytes: &mut Vec<u8>, row: &str) -> Result<(), Fail> {
    let (body, rest) = words(row);
    let (attrs, rest) = words(rest);
    let (omap, rest) = words(rest);
    let (value, rest) = words(rest);
    let (clients, _) = words(rest);
    let value = small(value)?;
    put_body(bytes, number(body)?)?;
    put_pairs(bytes, small(attrs)?, value)?;
    put_pairs(bytes, small(omap)?, value)?;
    put_requests(alloc, bytes, small(clients)?)
}

// The spelling of a state of such sizes, with ver and seq of 2^62.
fn sized(alloc: Global, row: &str) -> Result<Vec<u8>, Fail> {
    let mut bytes = hex(alloc, "4000000000000000 4000000000000000 01")?;
    put_sized(alloc, &mut bytes, row)?;
    Ok(bytes)
}

// One row.
fn sizes_hold(rt: &impl Abort, alloc: Global, row: &str) -> Result<(), Fail> {
    let bytes = sized(alloc, row)?;
    let verdict = spells(alloc, Kind::State, bytes.as_slice())?;
    holds(rt, row, verdict == row.ends_with('y'));
    holds(rt, row, !verdict || bytes.len() == 5_797_403);
    Ok(())
}

#[test]
fn states_at_and_past_a_limit(rt: HostRuntime) -> Result<(), Fail> {
    for row in SIZES.lines() {
        sizes_hold(&rt, rt.alloc(), row)?;
    }
    Ok(())
}
