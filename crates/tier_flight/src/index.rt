//! Which name has a number.
ghost use Rattle.std.specs.Prelude.{◌≡◌, ◌==◌, None, OnErr, OnOk};
ghost use Rattle.std.specs.Option.{option_copied};
ghost use Rattle.tier_flight.specs.Ends.{is_call};
ghost use Rattle.tier_flight.specs.Indexes.{AreEntered, AreForgotten, IsSameIndex, name_in};

use obj_model::{Name, NoMemory};
use std::alloc::Global;
use std::collections::HashMap;

/// The names of numbers.
#[derive(Drop)]
pub(crate) struct Index {
    names: HashMap<u64, Name>,
}

impl Index {
    pub(crate) fn new(alloc: Global) -> Index
        ensures { (k : _) → name_in result k ≡ None }
    {
        Index {
            names: HashMap::new(alloc),
        }
    }

    /// The name of a number.
    pub(crate) fn get(&self, number: u64) -> Option<&Name>
        ensures { option_copied result ≡ name_in self.now number }
    {
        self.names.get(&number)
    }

    /// Gives a number this name. Without memory nothing changes.
    pub(crate) fn enter(&mut self, number: u64, name: &Name) -> Result<(), NoMemory>
        ensures entered { OnOk result (AreEntered (λ k. number == k) name.now self.old self.new) }
        ensures refused { OnErr result (IsSameIndex self.old self.new) }
    {
        let name = name.copy()?;
        self.names.insert(number, name)?;
        Ok(())
    }

    /// The same of a number that may be missing.
    pub(crate) fn enter_some(&mut self, number: Option<u64>, name: &Name) -> Result<(), NoMemory>
        ensures entered { OnOk result
            (AreEntered (λ k. is_call k number) name.now self.old self.new) }
        ensures refused { OnErr result (IsSameIndex self.old self.new) }
    {
        match number {
            Some(number) => self.enter(number, name),
            None => Ok(()),
        }
    }

    /// Takes a number out, and answers its name.
    pub(crate) fn forget(&mut self, number: u64) -> Option<Name>
        ensures name { result ≡ name_in self.old number }
        ensures forgotten { AreForgotten (λ k. number == k) self.old self.new }
    {
        self.names.remove(&number)
    }

    /// Takes a number out that may be missing.
    pub(crate) fn forget_some(&mut self, number: Option<u64>)
        ensures { AreForgotten (λ k. is_call k number) self.old self.new }
    {
        if let Some(number) = number {
            self.forget(number);
        }
    }
}
