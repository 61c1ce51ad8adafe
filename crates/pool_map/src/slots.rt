//! The slots of a map: each key's is empty, or it has the key's value.
ghost use Rattle.std.specs.Prelude.{◌≡◌, IsSome, IfOk, OnOk, OnErr, None, Some, take, map, true, List, ℕ, [], ◌∷◌};
ghost use Rattle.std.specs.List.{All};
ghost use Rattle.std.specs.Option.{option_copied};
ghost use Rattle.std.specs.FinMap as fin;
ghost use Rattle.obj_model.specs.declared.change.Change.{Change};
ghost use Rattle.obj_model.specs.declared.change.Change.TheVariants.{Put};
ghost use Rattle.store_face.specs.Tables.{keys_above};
ghost use Rattle.pool_map.specs.Slots.{SlotMap, filled, with_values, rows, HasRoom, IsTidy, IsCovered, is_room, puts, slots_after};

use obj_model::{Bytes, Change, NoMemory};
use std::alloc::Global;
use std::collections::BTreeMap;
use std::collections::btree_map::Range;
use std::marker::Model;
use std::ops::Bound;

/// Keys with their slots. An empty slot is room for a value that was not put yet.
#[derive(Debug, Drop)]
pub struct Slots {
    inner: BTreeMap<Vec<u8>, Option<Bytes>>,
}

impl Model for Slots {
    ghost use Rattle.std.specs.Coded.{coded_ℕ, coded_list, coded_option};
    ghost use Rattle.std.specs.FinMap as fin;
    ghost use Rattle.pool_map.specs.Slots.{SlotMap, rows};

    ghost Value = { SlotMap };

    ghost coded = { fin.code (coded_list coded_ℕ) (coded_option (coded_list coded_ℕ)) };

    ghost view = { λ s. fin.from_entries (rows (λ k. k.items) s.inner.entries) };
}

impl Slots {
    /// No slot.
    pub fn new(alloc: Global) -> Slots
        ensures { result ≡ fin.empty }
    {
        Slots {
            inner: BTreeMap::new(alloc),
        }
    }

    // A key's slot, where it has one.
    fn slot(&self, key: &[u8]) -> Option<&Option<Bytes>>
        ensures { option_copied result ≡ fin.get self.now key.now }
    {
        self.inner.get(key)
    }

    // Gives a key this slot in place of any that it had. Only a key without one takes memory.
    fn set(&mut self, key: Vec<u8>, slot: Option<Bytes>) -> Result<(), NoMemory>
        ensures put { OnOk result (self.new ≡ fin.insert self.old key.items slot) }
        ensures refused { OnErr result (self.new ≡ self.old) }
        ensures absent { OnErr result (fin.get self.old key.items ≡ None) }
    {
        self.inner.insert(key, slot)?;
        Ok(())
    }

    // Takes a key's slot out, where it has one.
    fn take(&mut self, key: &[u8])
        ensures { self.new ≡ fin.remove self.old key.now }
    {
        self.inner.remove(key);
    }

    /// The value of a key, if it has one.
    #[tactic(auto, using(crate::proofs::Filled::filled_get))]
    pub fn get(&self, key: &[u8]) -> Option<&Bytes>
        ensures { option_copied result ≡ fin.get (filled self.now) key.now }
    {
        match self.slot(key) {
            Some(Some(value)) => Some(value),
            _ => None,
        }
    }

    /// The keys with a value that are above this one (without one: all), in the order of their
    /// bytes, at most `max` of them.
    pub fn keys_after(
        &self,
        alloc: Global,
        after: Option<&[u8]>,
        max: u32,
    ) -> Result<Vec<Bytes>, NoMemory>
        ensures { IfOk result (λ keys. keys.items ≡ take max
            (keys_above (option_copied after.entry) (filled self.now))) }
    {
        match after {
            Some(bound) => {
                let bound = Vec::from_slice(alloc, bound)?;
                first_keys(
                    alloc,
                    self.inner
                        .range((Bound::Excluded(&bound), Bound::Unbounded)),
                    max,
                )
            }
            None => first_keys(alloc, self.inner.range(..), max),
        }
    }

    // Sees to it that a key has a slot. The map that the slots hold stays.
    fn make_slot(&mut self, key: &Bytes) -> Result<(), NoMemory>
        ensures kept { filled self.new ≡ filled self.old }
        ensures made { OnOk result (IsSome (fin.get self.new key.now)) }
        ensures stays { (other : Change) → HasRoom self.old other → HasRoom self.new other }
        ensures tidy { (changes : List Change) → puts key.now changes ≡ true
            → IsTidy self.old changes → IsTidy self.new changes }
    {
        if self.slot(key.as_slice()).is_some() {
            return Ok(());
        }
        self.set(key.clone()?.into_vec(), None)?;
        Ok(())
    }

    // Sees to it that a change finds room. The map that the slots hold stays.
    fn make_room(&mut self, change: &Change) -> Result<(), NoMemory>
        ensures kept { filled self.new ≡ filled self.old }
        ensures made { OnOk result (HasRoom self.new change.now) }
        ensures stays { (other : Change) → HasRoom self.old other → HasRoom self.new other }
        ensures tidy { (changes : List Change) → IsCovered changes change.now
            → IsTidy self.old changes → IsTidy self.new changes }
    {
        match change {
            Change::Put { key, .. } => self.make_slot(key),
            Change::Remove { .. } => Ok(()),
        }
    }

    /// Sees to it that each of these changes finds room, or says that there is not the memory for
    /// it. The map that the slots hold stays. If no slot was empty, then each that is now is room
    /// for one of the changes.
    pub fn make_rooms(&mut self, changes: &[Change]) -> Result<(), NoMemory>
        ensures kept { filled self.new ≡ filled self.old }
        ensures made { OnOk result (All (HasRoom self.new) changes.now) }
        ensures tidy { IsTidy self.old [] → IsTidy self.new changes.now }
    {
        for change in changes {
            self.make_room(change)?;
        }
        Ok(())
    }

    // Whether a key's slot is there and empty.
    fn is_room(&self, key: &[u8]) -> bool
        ensures { result ≡ is_room (fin.get self.now key.now) }
    {
        matches!(self.slot(key), Some(None))
    }

    // Takes a key's slot out, if it is empty. The map that the slots hold stays.
    fn take_slot(&mut self, key: &[u8])
        ensures kept { filled self.new ≡ filled self.old }
        ensures tidy { (value : List ℕ) (changes : List Change)
            → IsTidy self.old (Put key.now value ∷ changes) → IsTidy self.new changes }
    {
        if self.is_room(key) {
            self.take(key);
        }
    }

    // Takes a change's slot out, if it is empty. The map that the slots hold stays.
    fn take_room(&mut self, change: &Change)
        ensures kept { filled self.new ≡ filled self.old }
        ensures tidy { (changes : List Change) → IsTidy self.old (change.now ∷ changes)
            → IsTidy self.new changes }
    {
        match change {
            Change::Put { key, .. } => self.take_slot(key.as_slice()),
            Change::Remove { .. } => {}
        }
    }

    /// Takes out the empty slots of these changes. The map that the slots hold stays.
    pub fn take_rooms(&mut self, changes: &[Change])
        ensures kept { filled self.new ≡ filled self.old }
        ensures tidy { IsTidy self.old changes.now → IsTidy self.new [] }
    {
        for change in changes {
            self.take_room(change);
        }
    }

    /// Makes a change that finds room.
    pub fn change(&mut self, change: Change)
        requires { HasRoom self.old change }
        ensures { self.new ≡ slots_after self.old change }
    {
        match change {
            Change::Put { key, value } => {
                // A key that has a slot takes no memory.
                let _ = self.set(key.into_vec(), Some(value));
            }
            Change::Remove { key } => self.take(key.as_slice()),
        }
    }
}

// The first of the keys that have a value, at most `max`.
fn first_keys(
    alloc: Global,
    slots: Range<'_, Vec<u8>, Option<Bytes>>,
    max: u32,
) -> Result<Vec<Bytes>, NoMemory>
    ensures { IfOk result (λ keys. keys.items ≡ take max
        (map (λ e. e.0) (with_values (rows (λ k. k.items) slots.entry)))) }
{
    let mut keys = Vec::new(alloc);
    for (key, slot) in slots {
        if keys.len() as u64 == max as u64 {
            return Ok(keys);
        }
        if slot.is_some() {
            keys.push(copy_of(key)?)?;
        }
    }
    Ok(keys)
}

// The bytes of a key.
fn copy_of(key: &Vec<u8>) -> Result<Bytes, NoMemory>
    ensures { IfOk result (λ bytes. bytes ≡ key.now.items) }
{
    Ok(Bytes::from_vec(key.clone()?))
}
