//! Hit sets that keep what they contain.
ghost use Rattle.std.specs.Prelude.{◌≡◌, [], not, IfOk, OnOk, OnErr};
ghost use Rattle.std.specs.List.{list_any};
ghost use Rattle.hit_sets.specs.Sets.{is_same_hash, is_same_name};
ghost use Rattle.hit_sets.specs.Steps.{grown};

use crate::past::Past;
use name_hash::fnv1a;
use obj_model::{Name, NoMemory};
use std::alloc::Global;
use std::collections::BTreeSet;
use std::marker::Model;

/// The hashes of the names.
#[derive(Drop)]
pub(crate) struct HashHits {
    hashes: BTreeSet<u64>,
    past: Past,
}

impl Model for HashHits {
    ghost use Rattle.std.specs.Prelude.{◌≡◌, List, ℕ};
    ghost use Rattle.std.specs.List.{list_any};
    ghost use Rattle.std.specs.BTreeSet.{contains};
    ghost use Rattle.std.specs.BTreeMap.{is_at};
    ghost use Rattle.std.specs.Ordering.{nat_cmp};
    ghost use Rattle.name_hash.specs.Fnv.{hash_of};
    ghost use Rattle.hit_sets.specs.Past.{names_of};

    ghost Value = { List (List ℕ) };

    ghost view = { λ s. names_of s.past };

    ghost invariant = { λ s. (h : ℕ) → contains nat_cmp s.hashes h
        ≡ list_any (λ n. is_at (nat_cmp h) (hash_of n)) (names_of s.past) };
}

impl HashHits {
    pub(crate) fn new(alloc: Global) -> HashHits
        ensures { result ≡ [] }
    {
        HashHits {
            hashes: BTreeSet::new(alloc),
            past: Past::new(),
        }
    }

    pub(crate) fn contains(&self, name: &Name) -> bool
        ensures { result ≡ list_any (is_same_hash name.now) self.now }
    {
        self.hashes.contains(&fnv1a(name.bytes()))
    }

    // Inserts the name's hash, and tells whether it was new.
    pub(crate) fn insert(&mut self, name: &Name) -> Result<bool, NoMemory>
        ensures new { IfOk result (λ new. new ≡ not (list_any (is_same_hash name.now) self.old)) }
        ensures done { OnOk result
            (self.new ≡ grown (list_any (is_same_hash name.now) self.old) self.old name.now) }
        ensures refused { OnErr result (self.new ≡ self.old) }
    {
        let new = self.hashes.insert(fnv1a(name.bytes()))?;
        if new {
            self.past.push(name);
        }
        Ok(new)
    }
}

/// The names themselves.
#[derive(Drop)]
pub(crate) struct NameHits {
    names: BTreeSet<Name>,
    past: Past,
}

impl Model for NameHits {
    ghost use Rattle.std.specs.Prelude.{◌≡◌, List, ℕ};
    ghost use Rattle.std.specs.List.{list_any};
    ghost use Rattle.std.specs.BTreeSet.{contains};
    ghost use Rattle.obj_model.specs.Names.{name_cmp};
    ghost use Rattle.hit_sets.specs.Past.{names_of};
    ghost use Rattle.hit_sets.specs.Sets.{is_same_name};

    ghost Value = { List (List ℕ) };

    ghost view = { λ s. names_of s.past };

    ghost invariant = { λ s. (q : List ℕ) → contains name_cmp s.names q
        ≡ list_any (is_same_name q) (names_of s.past) };
}

#[tactic(auto, using(crate::proofs::Pushed::name_pushed))]
impl NameHits {
    pub(crate) fn new(alloc: Global) -> NameHits
        ensures { result ≡ [] }
    {
        NameHits {
            names: BTreeSet::new(alloc),
            past: Past::new(),
        }
    }

    pub(crate) fn contains(&self, name: &Name) -> bool
        ensures { result ≡ list_any (is_same_name name.now) self.now }
    {
        self.names.contains(name)
    }

    // Inserts the name, and tells whether it was new.
    pub(crate) fn insert(&mut self, name: &Name) -> Result<bool, NoMemory>
        ensures new { IfOk result (λ new. new ≡ not (list_any (is_same_name name.now) self.old)) }
        ensures done { OnOk result
            (self.new ≡ grown (list_any (is_same_name name.now) self.old) self.old name.now) }
        ensures refused { OnErr result (self.new ≡ self.old) }
    {
        let new = self.names.insert(name.copy()?)?;
        if new {
            self.past.push(name);
        }
        Ok(new)
    }
}
