//! Unfinished work by name.
ghost use Rattle.std.specs.Prelude.{◌≡◌, OnErr, IfOk, OnOk};
ghost use Rattle.std.specs.Option.{option_copied};
ghost use Rattle.std.specs.FinMap as fin;
ghost use Rattle.obj_model.specs.Tables.{entries_above};
ghost use Rattle.tier_flight.specs.Busy.{busy_at};
ghost use Rattle.tier_flight.specs.Changes.{IsDroppedIn, IsFedIn, IsPromote, IsTakenIn, IsUnheld};
ghost use Rattle.tier_flight.specs.Joins.{IsJoinedIn, MayJoin};
ghost use Rattle.tier_flight.specs.Numbers.{HaveOneRead, IsIdle, IsNameBy, IsNewBy, IsSingle, has_call, has_opid};

use crate::busy::busy_of;
use crate::holding::{feed, hold};
use crate::joining::join;
use crate::leaving::leave_name;
use crate::numbers::{Numbers, call_of, leave_ended, opid_of};
use crate::{Busy, Want};
use copy_chunk::{Added, Chunk};
use obj_model::{Name, NameMap, NoMemory};
use std::alloc::Global;
use std::collections::btree_map::Range;
use std::marker::Model;
use tier_types::Flight;

/// Unfinished work on names, at most one on each. It is seen as a finite map from names.
///
/// No two works are one operation, a call waits for one work at most, and has one read of it at
/// most; the name of an operation and of a call is found by an index.
#[derive(Drop)]
pub struct Flights {
    by_name: NameMap<Flight>,
    numbers: Numbers,
}

impl Model for Flights {
    ghost use Rattle.std.specs.Coded.{coded_ℕ, coded_list};
    ghost use Rattle.std.specs.FinMap as fin;
    ghost use Rattle.tier_types.specs.contracts.flight.Flight as flight;
    ghost use Rattle.tier_flight.specs.Ends.{FlightMap};
    ghost use Rattle.tier_flight.specs.Indexes.{IsIndexed};
    ghost use Rattle.tier_flight.specs.Numbers.{HaveOneRead};

    ghost Value = { FlightMap };

    ghost coded = { fin.code (coded_list coded_ℕ) flight.the_row.coded };

    ghost view = { λ f. f.by_name };

    ghost invariant = { λ f. IsIndexed f.numbers.opids f.numbers.calls f.by_name
        × HaveOneRead f.by_name };
}

impl Flights {
    /// No work.
    pub fn new(alloc: Global) -> Flights
        ensures { result ≡ fin.empty }
    {
        Flights {
            by_name: NameMap::new(alloc),
            numbers: Numbers::new(alloc),
        }
    }

    /// The work on a name, if there is any.
    pub fn get(&self, name: &Name) -> Option<&Flight>
        ensures { option_copied result ≡ fin.get self.now name.now }
    {
        self.by_name.get(name)
    }

    /// The name whose work is this operation, if there is one.
    pub fn by_opid(&self, opid: u64) -> Option<&Name>
        ensures { IsNameBy has_opid self.now opid (option_copied result) }
    {
        self.numbers.opids.get(opid)
    }

    /// The name for whose work this call waits, if there is one.
    pub fn by_call(&self, call: u64) -> Option<&Name>
        ensures { IsNameBy has_call self.now call (option_copied result) }
    {
        self.numbers.calls.get(call)
    }

    /// A call has one read on a name at most. It only tells so, and does nothing.
    pub fn reads_are_one(&self)
        ensures { HaveOneRead self.now }
    {
        let _flights = &self.by_name;
    }

    /// The work on names above this one, or on all without one, in the order of the names.
    pub fn iter_above(&self, after: Option<&Name>) -> Range<'_, Name, Flight>
        ensures { result ≡ entries_above (option_copied after.entry) self.now }
    {
        self.by_name.iter_above(after)
    }

    /// What holds up a call that wants this of a name, if anything does.
    pub fn busy(&self, name: &Name, want: Want) -> Option<Busy>
        ensures { result ≡ busy_at (fin.get self.now name.now) want }
    {
        match self.by_name.get(name) {
            Some(flight) => busy_of(flight, want),
            None => None,
        }
    }

    /// Puts work on a name that has none, or a read behind the reads that it has. Its operation and
    /// its call are new here. Without memory nothing changes.
    pub fn add(&mut self, name: Name, work: Flight) -> Result<(), NoMemory>
        requires place { MayJoin (fin.get self.old name) work }
        requires single { IsSingle work }
        requires operation { IsNewBy has_opid self.old work }
        requires caller { IsNewBy has_call self.old work }
        ensures added { OnOk result (IsJoinedIn name work self.old self.new) }
        ensures refused { OnErr result (self.new ≡ self.old) }
    {
        let opid = opid_of(&work);
        let call = call_of(&work);
        match self.numbers.enter(opid, call, &name) {
            Ok(()) => {}
            Err(_) => return Err(NoMemory),
        }
        match join(&mut self.by_name, name, work) {
            Ok(()) => Ok(()),
            Err(_) => {
                self.numbers.leave(opid, call);
                Err(NoMemory)
            }
        }
    }

    /// Lets a call wait from now on for a write request that is left, or for a flush that was begun
    /// alone. The call waits for no other work. Without memory nothing changes.
    pub fn take_over(&mut self, name: &Name, call: u64) -> Result<(), NoMemory>
        requires free { IsUnheld (fin.get self.old name.now) }
        requires idle { IsIdle call self.old }
        ensures taken { OnOk result (IsTakenIn call name.now self.old self.new) }
        ensures refused { OnErr result (self.new ≡ self.old) }
    {
        match self.numbers.calls.enter(call, name) {
            Ok(()) => {
                hold(&mut self.by_name, name, call);
                Ok(())
            }
            Err(_) => Err(NoMemory),
        }
    }

    /// Gives a chunk to the promotion on a name. Without memory nothing changes.
    pub fn feed(&mut self, name: &Name, chunk: Chunk) -> Result<Added, NoMemory>
        requires { IsPromote (fin.get self.old name.now) }
        ensures fed { IfOk result (λ added. IsFedIn name.now chunk added self.old self.new) }
        ensures refused { OnErr result (self.new ≡ self.old) }
    {
        feed(&mut self.by_name, name, chunk)
    }

    /// Takes the work on a name out, and answers it. It takes no memory.
    pub fn remove(&mut self, name: &Name) -> Option<Flight>
        ensures before { result ≡ fin.get self.old name.now }
        ensures taken { self.new ≡ fin.remove self.old name.now }
    {
        match self.by_name.remove(name) {
            Some(work) => {
                self.numbers.leave_all(&work);
                Some(work)
            }
            None => None,
        }
    }

    /// Takes a call that ends out of all work: its promotion, its read and its flush are dropped,
    /// and its write request is left without a driver. A flush that was begun alone stays. It takes
    /// no memory.
    pub fn drop_call(&mut self, call: u64)
        ensures { IsDroppedIn call self.old self.new }
    {
        if let Some(name) = self.numbers.calls.forget(call) {
            leave_ended(&mut self.numbers.opids, call, self.by_name.get(&name));
            leave_name(&mut self.by_name, &name, call);
        }
    }
}
