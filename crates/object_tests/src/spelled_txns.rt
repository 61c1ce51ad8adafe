//! Transactions whose bytes, and what they spell, were worked out by hand.
use crate::spelled::{Kind, changes_hold, hex, put_all, rows_hold, spells, text_is_whole};
use crate::tools::{agree, given, holds, show_bytes, some};
use obj_model::Change;
use rec_codec::read_txn;
use std::alloc::Global;
use std::process::Abort;
use std::test::Fail;

// Puts "v" at N and a, and removes E.
const TXN: &str = "02 01 0002 4e61 00000001 76 02 0001 45";

// The transaction that digits spell.
fn txn(alloc: Global, text: &str) -> Result<Vec<Change>, Fail> {
    let bytes = hex(alloc, text)?;
    some(
        given(read_txn(alloc, bytes.as_slice()), "memory")?,
        "a transaction",
    )
}

// A change in words.
fn show_change(text: &mut String, change: &Change) -> Result<(), Fail> {
    match change {
        Change::Put { key, value } => {
            show_bytes(text, key.as_slice())?;
            text.push('=')?;
            show_bytes(text, value.as_slice())?;
        }
        Change::Remove { key } => {
            text.push('-')?;
            show_bytes(text, key.as_slice())?;
        }
    }
    Ok(text.push(' ')?)
}

// All changes.
fn show_changes(alloc: Global, changes: &[Change]) -> Result<String, Fail> {
    let mut text = String::new(alloc);
    for change in changes {
        show_change(&mut text, change)?;
    }
    Ok(text)
}

#[test]
fn worked_transaction(rt: HostRuntime) -> Result<(), Fail> {
    let changes = txn(rt.alloc(), TXN)?;
    agree(
        &rt,
        TXN,
        show_changes(rt.alloc(), changes.as_slice())?.as_str(),
        "Na=v -E ",
    );
    text_is_whole(&rt, rt.alloc(), Kind::Txn, TXN)
}

const TXN_CHANGES: &str = "0 0 n no change
0 1 n one change, and bytes that are left
0 3 n a third that is not there
0 9 n nine changes
1 0 n no tag
1 2 n a removal of Na, and a tag 0
1 3 n no tag
2 1 n a key of 258 bytes
3 0 n a key without bytes
3 1 n the key N, and a value longer than what is left
4 0 y any byte may stand in a key
6 1 n a value of 16,777,217 bytes
9 0 n no value, and a tag 0x76
10 255 y another value
11 1 n a value that is not there
13 0 n a key without bytes
14 255 y another key";

const TXNS: &str = "y 01 02 0001 45
n 01 02 0001 45 00, a byte too many
y 02 02 0001 45 02 0001 46
y 02 02 0001 46 02 0001 45, in any order
n 02 02 0001 45 02 0001 45, a key twice
n 02 01 0001 45 00000000 02 0001 45, a key twice";

#[test]
fn changed_transactions(rt: HostRuntime) -> Result<(), Fail> {
    let alloc = rt.alloc();
    changes_hold(&rt, alloc, Kind::Txn, TXN, TXN_CHANGES)?;
    rows_hold(&rt, alloc, Kind::Txn, TXNS)
}

// The removal of a key of so many bytes is a transaction, or not.
fn long_key(rt: &impl Abort, alloc: Global, len: u16, want: bool) -> Result<(), Fail> {
    let mut bytes = Vec::from_slice(alloc, &[1, 2])?;
    bytes.extend_from_slice(&len.to_be_bytes())?;
    put_all(&mut bytes, 0x61, u64::from(len))?;
    let found = spells(alloc, Kind::Txn, bytes.as_slice())?;
    holds(rt, "a long key", found == want);
    Ok(())
}

#[test]
fn long_keys(rt: HostRuntime) -> Result<(), Fail> {
    long_key(&rt, rt.alloc(), 1, true)?;
    long_key(&rt, rt.alloc(), 256, true)?;
    long_key(&rt, rt.alloc(), 257, false)
}
