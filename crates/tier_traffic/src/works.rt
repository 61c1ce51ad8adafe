//! Unfinished work, with its write requests counted.
ghost use Rattle.std.specs.FinMap as fin;
ghost use Rattle.std.specs.Option.{option_copied};
ghost use Rattle.std.specs.Prelude.{◌≡◌, IfOk, OnErr, OnOk};
ghost use Rattle.tier_flight.specs.Changes.{IsDroppedIn, IsFedIn, IsPromote, IsTakenIn, IsUnheld};
ghost use Rattle.tier_flight.specs.Joins.{IsJoinedIn, MayJoin};
ghost use Rattle.tier_flight.specs.Numbers.{IsIdle, IsNewBy, IsSingle, has_call, has_opid};
ghost use Rattle.tier_traffic.specs.Left.{Drives, drives_on, is_driven, is_left, left_writes, passes};

use copy_chunk::{Added, Chunk};
use obj_model::{Name, NoMemory};
use std::alloc::Global;
use std::marker::Model;
use tier_flight::Flights;
use tier_types::Flight;

/// Unfinished work on names. It counts the write requests as they come and go: those that a call
/// waits for, and those that are left. It is seen as the work itself.
#[derive(Drop)]
pub(crate) struct Works {
    flights: Flights,
    driven: u64,
    left: u64,
}

impl Model for Works {
    ghost use Rattle.std.specs.Coded.{coded_ℕ, coded_list};
    ghost use Rattle.std.specs.FinMap as fin;
    ghost use Rattle.tier_types.specs.contracts.flight.Flight as flight;
    ghost use Rattle.tier_flight.specs.Ends.{FlightMap};
    ghost use Rattle.tier_traffic.specs.Left.{AreCounted};

    ghost Value = { FlightMap };

    ghost coded = { fin.code (coded_list coded_ℕ) flight.the_row.coded };

    ghost view = { λ w. w.flights };

    ghost invariant = { λ w. AreCounted w.driven w.left w.flights };
}

// Whether it is a write request that a call waits for.
fn is_driven(work: &Flight) -> bool
    ensures { result ≡ is_driven work.now }
{
    match work {
        Flight::Write { driver, .. } => driver.is_some(),
        _ => false,
    }
}

// Whether it is a write request that is left.
fn is_left(work: &Flight) -> bool
    ensures { result ≡ is_left work.now }
{
    match work {
        Flight::Write { driver, .. } => driver.is_none(),
        _ => false,
    }
}

// The same of the work on a name, if there is any.
fn is_left_at(work: Option<&Flight>) -> bool
    ensures { result ≡ passes is_left (option_copied work.entry) }
{
    match work {
        Some(work) => is_left(work),
        None => false,
    }
}

// Whether the work on the name that was found is a write request that a call waits for.
fn is_driven_on(flights: &Flights, found: Option<&Name>) -> bool
    ensures { result ≡ drives_on flights.now (option_copied found.entry) }
{
    match found {
        Some(name) => match flights.get(name) {
            Some(work) => is_driven(work),
            None => false,
        },
        None => false,
    }
}

// Whether the call waits for a write request.
fn drives(flights: &Flights, call: u64) -> bool
    ensures { Drives call flights.now result }
{
    let found = flights.by_call(call);
    is_driven_on(flights, found)
}

impl Works {
    pub(crate) fn new(alloc: Global) -> Works
        ensures { result ≡ fin.empty }
    {
        Works {
            flights: Flights::new(alloc),
            driven: 0,
            left: 0,
        }
    }

    pub(crate) fn flights(&self) -> &Flights
        ensures { result.now ≡ self.now }
    {
        &self.flights
    }

    /// How many write requests are left. It is a running count.
    pub(crate) fn left_writes(&self) -> u64
        ensures { result ≡ left_writes self.now }
    {
        self.left
    }

    /// Puts work on a name that has none, or a read behind the reads that it has. Its operation and
    /// its call are new here. Without memory, or when write requests are counted no further,
    /// nothing changes.
    pub(crate) fn add(&mut self, name: Name, work: Flight) -> Result<(), NoMemory>
        requires place { MayJoin (fin.get self.old name) work }
        requires single { IsSingle work }
        requires operation { IsNewBy has_opid self.old work }
        requires caller { IsNewBy has_call self.old work }
        ensures added { OnOk result (IsJoinedIn name work self.old self.new) }
        ensures refused { OnErr result (self.new ≡ self.old) }
    {
        if self.driven + self.left == u64::MAX {
            return Err(NoMemory);
        }
        let driven = self.driven + is_driven(&work) as u64;
        let left = self.left + is_left(&work) as u64;
        self.flights.add(name, work)?;
        self.driven = driven;
        self.left = left;
        Ok(())
    }

    /// Lets a call wait from now on for a write request that is left, or for a flush that was begun
    /// alone. The call waits for no other work. Without memory nothing changes.
    pub(crate) fn take_over(&mut self, name: &Name, call: u64) -> Result<(), NoMemory>
        requires free { IsUnheld (fin.get self.old name.now) }
        requires idle { IsIdle call self.old }
        ensures taken { OnOk result (IsTakenIn call name.now self.old self.new) }
        ensures refused { OnErr result (self.new ≡ self.old) }
    {
        let taken = is_left_at(self.flights.get(name)) as u64;
        self.flights.take_over(name, call)?;
        self.left -= taken;
        self.driven += taken;
        Ok(())
    }

    /// Gives a chunk to the promotion on a name. Without memory nothing changes.
    pub(crate) fn feed(&mut self, name: &Name, chunk: Chunk) -> Result<Added, NoMemory>
        requires { IsPromote (fin.get self.old name.now) }
        ensures fed { IfOk result (λ added. IsFedIn name.now chunk added self.old self.new) }
        ensures refused { OnErr result (self.new ≡ self.old) }
    {
        self.flights.feed(name, chunk)
    }

    /// Takes the work on a name out, and answers it. It takes no memory.
    pub(crate) fn remove(&mut self, name: &Name) -> Option<Flight>
        ensures before { result ≡ fin.get self.old name.now }
        ensures taken { self.new ≡ fin.remove self.old name.now }
    {
        match self.flights.remove(name) {
            Some(work) => {
                self.driven -= is_driven(&work) as u64;
                self.left -= is_left(&work) as u64;
                Some(work)
            }
            None => None,
        }
    }

    /// Takes a call that ends out of all work: its promotion, its read and its flush are dropped,
    /// and its write request is left. It takes no memory.
    pub(crate) fn drop_call(&mut self, call: u64)
        ensures { IsDroppedIn call self.old self.new }
    {
        let leaves = drives(&self.flights, call) as u64;
        self.flights.drop_call(call);
        self.driven -= leaves;
        self.left += leaves;
    }
}
