//! A pool's map, whose changes are prepared and then applied.
ghost use Rattle.std.specs.Prelude.{◌≡◌, IfOk, OnOk, OnErr, [], take};
ghost use Rattle.std.specs.Option.{option_copied};
ghost use Rattle.std.specs.List.{All};
ghost use Rattle.std.specs.FinMap as fin;
ghost use Rattle.obj_model.specs.Changes.{AreApart};
ghost use Rattle.store_face.specs.Tables.{changed_by, keys_above};
ghost use Rattle.pool_map.specs.Slots.{filled, HasRoom, IsTidy};
ghost use Rattle.pool_map.specs.Pools.{at_rest};

use crate::slots::Slots;
use obj_model::{Bytes, Change, Items, NoMemory};
use std::alloc::Global;
use std::marker::Model;
use std::mem;

/// A map from keys to values, both of them bytes, and the changes of it that are prepared: all
/// memory that they need is taken.
#[derive(Debug, Drop)]
pub struct PoolMap {
    alloc: Global,
    slots: Slots,
    ready: Vec<Change>,
}

impl Model for PoolMap {
    ghost use Rattle.std.specs.List.{All};
    ghost use Rattle.obj_model.specs.Changes.{AreApart};
    ghost use Rattle.pool_map.specs.Slots.{filled, HasRoom, IsTidy};
    ghost use Rattle.pool_map.specs.Pools.{PoolView, coded_pool};

    ghost Value = { PoolView };

    ghost coded = { coded_pool };

    ghost view = { λ p. record { table = filled p.slots; ready = p.ready.items } };

    ghost invariant = { λ p. AreApart p.ready.items × All (HasRoom p.slots) p.ready.items
        × IsTidy p.slots p.ready.items };
}

impl PoolMap {
    /// A map without keys. No change is prepared.
    pub fn new(alloc: Global) -> PoolMap
        ensures { result ≡ at_rest fin.empty }
    {
        PoolMap {
            alloc,
            slots: Slots::new(alloc),
            ready: Vec::new(alloc),
        }
    }

    /// The value of a key, if it has one. A change that is prepared is not seen.
    pub fn get(&self, key: &[u8]) -> Option<&Bytes>
        ensures { option_copied result ≡ fin.get self.now.table key.now }
    {
        self.slots.get(key)
    }

    /// The keys above this one (without one: all), in the order of their bytes, at most `max` of
    /// them. The time is that of finding the first, and for each key that is answered and each that
    /// is prepared but not yet there.
    pub fn keys_after(&self, after: Option<&[u8]>, max: u32) -> Result<Items<Bytes>, NoMemory>
        ensures { IfOk result (λ keys. keys ≡ take max
            (keys_above (option_copied after.entry) self.now.table)) }
    {
        Ok(Items::from_vec(self.slots.keys_after(self.alloc, after, max)?))
    }

    /// Takes all memory that these changes need, in place of those that were prepared before. The
    /// map stays. After `NoMemory` no change is prepared.
    pub fn prepare(&mut self, changes: Vec<Change>) -> Result<(), NoMemory>
        requires { AreApart changes.items }
        ensures same { self.new.table ≡ self.old.table }
        ensures ready { OnOk result (self.new.ready ≡ changes.items) }
        ensures refused { OnErr result (self.new.ready ≡ []) }
    {
        self.forget();
        if let Err(fault) = self.slots.make_rooms(changes.as_slice()) {
            self.slots.take_rooms(changes.as_slice());
            return Err(fault);
        }
        self.ready = changes;
        Ok(())
    }

    /// Makes the changes that are prepared, which takes no memory.
    pub fn apply(&mut self)
        ensures { self.new ≡ at_rest (changed_by self.old.table self.old.ready) }
    {
        let changes = mem::replace(&mut self.ready, Vec::new(self.alloc));
        change_all(&mut self.slots, changes);
    }

    /// Lets go of the changes that are prepared, and of the memory that was taken for them. The map
    /// stays.
    pub fn forget(&mut self)
        ensures { self.new ≡ at_rest self.old.table }
    {
        let changes = mem::replace(&mut self.ready, Vec::new(self.alloc));
        self.slots.take_rooms(changes.as_slice());
    }
}

// Makes changes that find room, one after another.
fn change_all(slots: &mut Slots, changes: Vec<Change>)
    requires apart { AreApart changes.items }
    requires room { All (HasRoom slots.old) changes.items }
    requires tidy { IsTidy slots.old changes.items }
    ensures made { filled slots.new ≡ changed_by (filled slots.old) changes.items }
    ensures tidy { IsTidy slots.new [] }
{
    for change in changes {
        slots.change(change);
    }
}
