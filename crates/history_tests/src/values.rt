//! What readings tell, in texts that were written by hand.
use crate::tools::{bytes, name, says};
use obj_model::{Items, KeyList, Out, OutList, Pair, PairList};
use std::alloc::Global;
use std::test::*;
use tier_chron::Answer;

// The keys of a text, which stand apart by points.
fn keys(alloc: Global, words: &str) -> Result<KeyList, Fail> {
    let mut keys = Items::new(alloc);
    for word in words.split('.') {
        if !word.is_empty() {
            keys.push(name(alloc, word)?)?;
        }
    }
    Ok(keys)
}

// A key with the value `vw`.
fn pair(alloc: Global, word: &str) -> Result<Pair, Fail> {
    let key = name(alloc, word)?;
    let value = bytes(alloc, "vw")?;
    Ok(Pair { key, value })
}

// The same keys, each with the value `vw`.
fn pairs(alloc: Global, words: &str) -> Result<PairList, Fail> {
    let mut pairs = Items::new(alloc);
    for word in words.split('.') {
        if !word.is_empty() {
            pairs.push(pair(alloc, word)?)?;
        }
    }
    Ok(pairs)
}

// What a sub-operation tells: a guard `ok`, a size `size`, bytes `=BYTES`, keys `k:KEYS`, keys with
// values `p:KEYS`.
fn out(alloc: Global, word: &str) -> Result<Out, Fail> {
    if let Some(words) = word.strip_prefix("k:") {
        return Ok(Out::Names(keys(alloc, words)?));
    }
    if let Some(words) = word.strip_prefix("p:") {
        return Ok(Out::Pairs(pairs(alloc, words)?));
    }
    if let Some(word) = word.strip_prefix("=") {
        return Ok(Out::Bytes(bytes(alloc, word)?));
    }
    Ok(if word == "ok" {
        Out::Checked
    } else {
        Out::Size(1_048_576)
    })
}

/// What sub-operations tell, a word each.
pub fn outs(alloc: Global, words: &str) -> Result<OutList, Fail> {
    let mut outs = Items::new(alloc);
    for word in words.split(' ') {
        outs.push(out(alloc, word)?)?;
    }
    Ok(outs)
}

const VALUES: &str = "ok => values v2 @7 ok
=ab~ => values v2 @7 61627e
= => values v2 @7 -
size => values v2 @7 1048576
k: => values v2 @7 0
k:k1 => values v2 @7 1 k1
k:k1.k2 => values v2 @7 2 k1 k2
p: => values v2 @7 0
p:p => values v2 @7 1 p 7677
p:p.q => values v2 @7 2 p 7677 q 7677
ok size => values v2 @7 ok ; 1048576
= k: p: => values v2 @7 - ; 0 ; 0
ok =a k:k1.k2 p:p.q size => values v2 @7 ok ; 61 ; 2 k1 k2 ; 2 p 7677 q 7677 ; 1048576";

#[test]
fn values_of_every_kind(rt: HostRuntime) -> Result<(), Fail> {
    for row in VALUES.lines() {
        let (words, text) = row.split_once(" => ").ok_or("a row")?;
        let outs = outs(rt.alloc(), words)?;
        assert!(rt;
            says(rt.alloc(), &Answer::Values { ver: 2, outs }, text),
            "{text}"
        );
    }
    Ok(())
}
