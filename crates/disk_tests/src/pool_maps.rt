//! Changes of a map that are prepared, applied and forgotten, on keys that were worked out by hand.
ghost use Rattle.std.specs.Prelude.{◌≡◌, IfOk};
ghost use Rattle.obj_model.specs.Changes.{AreApart, key_of};

use obj_model::{Bytes, Change, NoMemory};
use pool_map::PoolMap;
use std::alloc::Global;
use std::test::Fail;

// A change: `k=v` puts v at k, and `-k` removes k.
fn change(alloc: Global, word: &str) -> Result<Change, Fail> {
    if let Some(key) = word.strip_prefix('-') {
        let key = Bytes::from_vec(Vec::from_slice(alloc, key.as_bytes())?);
        return Ok(Change::Remove { key });
    }
    let (key, value) = word.split_once('=').ok_or("a change")?;
    let key = Bytes::from_vec(Vec::from_slice(alloc, key.as_bytes())?);
    let value = Bytes::from_vec(Vec::from_slice(alloc, value.as_bytes())?);
    Ok(Change::Put { key, value })
}

fn key(change: &Change) -> &Bytes
    ensures { result.now ≡ key_of change.now }
{
    match change {
        Change::Put { key, .. } => key,
        Change::Remove { key } => key,
    }
}

fn one(alloc: Global, change: Change) -> Result<Vec<Change>, NoMemory>
    ensures { IfOk result (λ changes. AreApart changes.items) }
{
    let mut changes = Vec::with_capacity(alloc, 1)?;
    changes.push(change)?;
    Ok(changes)
}

// Both changes, or the second alone where they speak of one key.
fn two(alloc: Global, first: Change, second: Change) -> Result<Vec<Change>, NoMemory>
    ensures { IfOk result (λ changes. AreApart changes.items) }
{
    if key(&first) == key(&second) {
        return one(alloc, second);
    }
    let mut changes = Vec::with_capacity(alloc, 2)?;
    changes.push(first)?;
    changes.push(second)?;
    Ok(changes)
}

// One change, or two.
fn changes(alloc: Global, words: &str) -> Result<Vec<Change>, Fail>
    ensures { IfOk result (λ changes. AreApart changes.items) }
{
    match words.split_once(' ') {
        None => {
            let change = change(alloc, words)?;
            Ok(one(alloc, change)?)
        }
        Some((first, second)) => {
            let first = change(alloc, first)?;
            let second = change(alloc, second)?;
            Ok(two(alloc, first, second)?)
        }
    }
}

fn prepare(alloc: Global, map: &mut PoolMap, words: &str) -> Result<(), Fail> {
    let changes = changes(alloc, words)?;
    map.prepare(changes)?;
    Ok(())
}

// At most so many of the map's keys above a key, with their values, as one text: `a=1 b=2 `.
fn shown(
    alloc: Global,
    map: &PoolMap,
    after: Option<&[u8]>,
    max: u32,
) -> Result<Vec<u8>, NoMemory> {
    let mut text = Vec::new(alloc);
    for key in map.keys_after(after, max)?.as_slice() {
        text.extend_from_slice(key.as_slice())?;
        text.push(b'=')?;
        if let Some(value) = map.get(key.as_slice()) {
            text.extend_from_slice(value.as_slice())?;
        }
        text.push(b' ')?;
    }
    Ok(text)
}

// A step, and all that the map then shows. Changes are seen once they are applied, and applied
// once; what is forgotten is not made; what is prepared later stands in place of what was prepared
// before.
const STEPS: &str = "prepare b=1 a= =>
apply => a= b=1
prepare a=22 -b => a= b=1
apply => a=22
apply => a=22
prepare b=2 -a => a=22
forget => a=22
apply => a=22
prepare b=2 -a => a=22
prepare d=4 => a=22
apply => a=22 d=4";

#[test]
fn changes_are_seen_once_applied(rt: HostRuntime) -> Result<(), Fail> {
    let alloc = rt.alloc();
    let mut map = PoolMap::new(alloc);
    for row in STEPS.lines() {
        let (step, want) = row.split_once(" =>").ok_or("a row")?;
        match step {
            "apply" => map.apply(),
            "forget" => map.forget(),
            _ => {
                let words = step.strip_prefix("prepare ").ok_or("a step")?;
                prepare(alloc, &mut map, words)?;
            }
        }
        let text = shown(alloc, &map, None, 100)?;
        assert!(rt;
            text.as_slice().trim_ascii() == want.as_bytes().trim_ascii(),
            "{row}"
        );
    }
    Ok(())
}

// The most keys and the key in front of them, which may be empty; or the most keys of all.
const LISTINGS: &str = "0 =>
1 => a=1
2 => a=1 c=3
4294967295 => a=1 c=3 e=5
1  => a=1
0 a =>
1 a => c=3
2 c => e=5
5 e =>";

#[test]
fn keys_are_listed_above_a_bound(rt: HostRuntime) -> Result<(), Fail> {
    let alloc = rt.alloc();
    let mut map = PoolMap::new(alloc);
    prepare(alloc, &mut map, "e=5 a=1")?;
    map.apply();
    prepare(alloc, &mut map, "c=3")?;
    map.apply();
    // A key that is only prepared is no key.
    prepare(alloc, &mut map, "d=4 -a")?;
    for row in LISTINGS.lines() {
        let (bound, want) = row.split_once(" =>").ok_or("a row")?;
        let (max, after) = match bound.split_once(' ') {
            None => (bound, None),
            Some((max, after)) => (max, Some(after.as_bytes())),
        };
        let max = max.parse::<u32>().ok().ok_or("a number")?;
        let text = shown(alloc, &map, after, max)?;
        assert!(rt;
            text.as_slice().trim_ascii() == want.as_bytes().trim_ascii(),
            "{row}"
        );
    }
    Ok(())
}
