//! The pairs of one chunk of a table. Of the pairs before them the lengths alone are added up.
ghost use Rattle.std.specs.Prelude.{◌≡◌, ◌+◌, ◌-◌, ◌++◌, ◌∷◌, [], IfOk, OnOk, Some, None, length};
ghost use Rattle.std.specs.Prelude.{nat_le, is_some, true, if◌then◌else◌};
ghost use Rattle.std.specs.Option.{option_copied};
ghost use Rattle.std.specs.FinMap as fin;
ghost use Rattle.obj_model.specs.Tables.{entries_above};
ghost use Rattle.copy_chunk.specs.Chunks.{pair_of};
ghost use Rattle.copy_chunk.specs.Cuts.{room_behind, first_group, begins, is_begin, group_at};

use obj_model::{Bytes, Items, Name, NoMemory, Pair, PairList, PairMap};
use std::alloc::Global;

/// The most bytes that a chunk brings of a body or of a table.
pub(crate) const CHUNK_LIMIT: usize = 65_536;

/// The pairs of one chunk, and their last key where others follow.
#[derive(Drop)]
pub(crate) struct Group {
    pub(crate) pairs: PairList,
    pub(crate) last: Option<Name>,
}

// The bytes of a pair.
fn weight(key: &Name, value: &Bytes) -> usize
    ensures { result ≡ length key.now + length value.now }
{
    key.bytes().len() + value.as_slice().len()
}

// The room that is left in a group once a pair came, in the same group where it fits and else in a
// new one.
fn room_left(room: usize, bytes: usize) -> usize
    ensures { result ≡ (if nat_le bytes room then room - bytes else 65536 - bytes) }
{
    if bytes <= room {
        room - bytes
    } else {
        CHUNK_LIMIT.saturating_sub(bytes)
    }
}

// The room that is left in its group behind the pair with a key; none where there is no such pair.
fn room_behind(table: &PairMap, key: &Name) -> Option<usize>
    ensures { result ≡ room_behind 65536 (fin.entries table.now) key.now }
{
    let mut room = CHUNK_LIMIT;
    for (name, value) in table.iter() {
        room = room_left(room, weight(name, value));
        if name == key {
            return Some(room);
        }
    }
    None
}

// A copy of a pair behind others.
fn push_pair(pairs: &mut Vec<Pair>, key: &Name, value: &Bytes) -> Result<(), NoMemory>
    ensures { OnOk result (pairs.new.items ≡ pairs.old.items ++ pair_of (key.now, value.now) ∷ []) }
{
    let key = key.copy()?;
    let value = value.clone()?;
    pairs.push(Pair { key, value })?;
    Ok(())
}

// The group that begins behind a key.
fn first_group(
    alloc: Global,
    table: &PairMap,
    after: Option<&Name>,
) -> Result<Option<Group>, NoMemory>
    ensures { IfOk result (λ group. group
        ≡ first_group (entries_above (option_copied after.entry) table.now)) }
{
    let mut left = table.iter_above(after);
    let Some((first, value)) = left.next() else {
        return Ok(None);
    };
    let mut pairs = Vec::new(alloc);
    push_pair(&mut pairs, first, value)?;
    let mut room = CHUNK_LIMIT.saturating_sub(weight(first, value));
    let mut last = first;
    for (key, value) in left {
        let bytes = weight(key, value);
        if bytes > room {
            return Ok(Some(Group {
                pairs: Items::from_vec(pairs),
                last: Some(last.copy()?),
            }));
        }
        push_pair(&mut pairs, key, value)?;
        room -= bytes;
        last = key;
    }
    Ok(Some(Group {
        pairs: Items::from_vec(pairs),
        last: None,
    }))
}

// Whether a group begins behind a key, with so much room left before it.
fn begins(table: &PairMap, key: &Name, room: usize) -> bool
    ensures { result ≡ begins room (entries_above (Some key.now) table.now) }
{
    match table.iter_above(Some(key)).next() {
        None => false,
        Some((name, value)) => weight(name, value) > room,
    }
}

// Whether a group begins at a place of a table. It goes through the table up to there.
fn is_begin(table: &PairMap, after: Option<&Name>) -> bool
    ensures { result ≡ is_begin table.now (option_copied after.entry) }
{
    let Some(key) = after else {
        return true;
    };
    match room_behind(table, key) {
        None => false,
        Some(room) => begins(table, key, room),
    }
}

/// The group at a place of a table; none where no group begins there. Where it is known that one
/// does, the table before it is left alone.
#[tactic(auto, using(crate::proofs::Known::known_group))]
pub(crate) fn group_at(
    alloc: Global,
    table: &PairMap,
    after: Option<&Name>,
    known: bool,
) -> Result<Option<Group>, NoMemory>
    requires { known ≡ true → is_some (group_at table.now (option_copied after)) ≡ true }
    ensures { IfOk result (λ group. group ≡ group_at table.now (option_copied after.entry)) }
{
    if known || is_begin(table, after) {
        first_group(alloc, table, after)
    } else {
        Ok(None)
    }
}
