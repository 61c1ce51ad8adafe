//! How far drains have come.
ghost use Rattle.std.specs.BTreeMap.{IsOrdered, insert_entry, is_at};
ghost use Rattle.std.specs.Map.{remove_entry};
ghost use Rattle.std.specs.Ordering.{nat_cmp};
ghost use Rattle.std.specs.Prelude.{◌≡◌, [], OnErr, OnOk};
ghost use Rattle.std.specs.Option.{option_copied};
ghost use Rattle.tier_view.specs.Changes.{unnoted};
ghost use Rattle.tier_traffic.specs.Waits.{noted_of, noting};

use obj_model::NoMemory;
use std::alloc::Global;
use std::collections::BTreeMap;
use std::marker::Model;
use tier_view::Noted;

/// What the drain of each call noted, in the order of the calls.
#[derive(Drop)]
pub(crate) struct Notes {
    inner: BTreeMap<u64, Noted>,
}

impl Model for Notes {
    ghost use Rattle.std.specs.Coded.{coded_list};
    ghost use Rattle.std.specs.BTreeMap.{IsOrdered};
    ghost use Rattle.std.specs.List.{AllByRecursion};
    ghost use Rattle.std.specs.Map.{values_of};
    ghost use Rattle.std.specs.Ordering.{nat_cmp};
    ghost use Rattle.std.specs.Prelude.{◌≡◌, List};
    ghost use Rattle.tier_view.specs.declared.parts.Noted.{Noted};
    ghost use Rattle.tier_view.specs.contracts.parts.Noted as noted;

    ghost Value = { List Noted };

    ghost coded = { coded_list noted.the_row.coded };

    ghost view = { λ n. values_of n.inner.entries };

    ghost invariant = { λ n. IsOrdered nat_cmp n.inner
        × AllByRecursion (λ e. e.1.call ≡ e.0) n.inner.entries };
}

impl Notes {
    /// Nothing was noted.
    pub(crate) fn new(alloc: Global) -> Notes
        ensures { result ≡ [] }
    {
        Notes {
            inner: BTreeMap::new(alloc),
        }
    }

    /// What a call noted, if it noted anything.
    pub(crate) fn get(&self, call: u64) -> Option<&Noted>
        ensures { option_copied result ≡ noted_of self.now call }
    {
        self.inner.get(&call)
    }

    /// Notes this of its call, in place of what it noted before. Without memory nothing changes.
    pub(crate) fn set(&mut self, noted: Noted) -> Result<(), NoMemory>
        ensures ok { OnOk result (self.new ≡ noting noted self.old) }
        ensures err { OnErr result (self.new ≡ self.old) }
    {
        put(&mut self.inner, noted)
    }

    /// Forgets what a call noted.
    pub(crate) fn remove(&mut self, call: u64)
        ensures { self.new ≡ unnoted call self.old }
    {
        take_out(&mut self.inner, call);
    }
}

// Puts what a call noted under its number. Without memory nothing changes.
fn put(inner: &mut BTreeMap<u64, Noted>, noted: Noted) -> Result<(), NoMemory>
    ensures ok { OnOk result
        (inner.new.entries ≡ insert_entry nat_cmp inner.old.entries noted.call noted) }
    ensures err { OnErr result (inner.new.entries ≡ inner.old.entries) }
    ensures ordered { IsOrdered nat_cmp inner.new }
{
    inner.insert(noted.call, noted)?;
    Ok(())
}

// Takes out what a call noted.
fn take_out(inner: &mut BTreeMap<u64, Noted>, call: u64)
    ensures taken { inner.new.entries ≡ remove_entry (is_at (nat_cmp call)) inner.old.entries }
    ensures ordered { IsOrdered nat_cmp inner.new }
{
    inner.remove(&call);
}
