//! Values under numbers that only rise.
ghost use Rattle.std.specs.Prelude.{◌≡◌, ◌==◌, ◌+◌, true, false, [], ◌∷◌, filter, not, OnErr, OnOk};
ghost use Rattle.std.specs.List.{list_any};
ghost use Rattle.std.specs.Map.{lookup, remove_entry, values_of};
ghost use Rattle.std.specs.Option.{option_copied};
ghost use Rattle.tier_traffic.specs.Messages.{is_owned, is_owned_at, is_owner};
ghost use Rattle.tier_traffic.specs.Numbered.{is_under};

use obj_model::NoMemory;
use std::alloc::Global;
use std::cmp::Reverse;
use std::collections::BTreeMap;
use std::marker::Model;
use tier_view::{Owner, Sent};

/// Values under numbers from 1 on, each of which is given once. Memory for the next value is a
/// place under its number, which is not seen.
#[derive(Drop)]
pub(crate) struct Numbered<V> {
    inner: BTreeMap<Reverse<u64>, Option<V>>,
    next: u64,
    ready: bool,
}

impl<V> Model for Numbered<V> {
    ghost use Rattle.tier_traffic.specs.Numbered.{AreLeft, IsShelf, NumberedView, coded_numbered, held_in};

    ghost Value = { NumberedView V };

    ghost coded = { coded_numbered V.code };

    ghost view = { λ n. record {
      held = held_in n.inner.entries;
      next = n.next;
      ready = n.ready;
    } };

    ghost invariant = { λ n. IsShelf n.ready n.next n.inner.entries × AreLeft n.ready n.next };
}

impl<V> Numbered<V> {
    /// No value, and no memory for one.
    pub(crate) fn new(alloc: Global) -> Numbered<V>
        ensures { result ≡ record { held = []; next = 1; ready = false } }
    {
        Numbered {
            inner: BTreeMap::new(alloc),
            next: 1,
            ready: false,
        }
    }

    /// The number of the next value.
    pub(crate) fn next(&self) -> u64
        ensures { result ≡ self.now.next }
    {
        self.next
    }

    /// The value of a number, if there is one.
    pub(crate) fn get(&self, number: u64) -> Option<&V>
        ensures { option_copied result ≡ lookup (λ n. n == number) self.now.held }
    {
        match self.inner.get(&Reverse(number)) {
            Some(place) => place.as_ref(),
            None => None,
        }
    }
}

impl<V: Drop> Numbered<V> {
    /// Takes memory for the next value. Without it, or when all numbers were given, nothing
    /// changes.
    pub(crate) fn reserve(&mut self) -> Result<(), NoMemory>
        ensures ok { OnOk result (self.new ≡ record self.old { ready = true }) }
        ensures err { OnErr result (self.new ≡ self.old) }
    {
        if self.ready {
            return Ok(());
        }
        if self.next >= u64::MAX {
            return Err(NoMemory);
        }
        self.inner.insert(Reverse(self.next), None)?;
        self.ready = true;
        Ok(())
    }

    /// Puts a value under the next number. It takes no memory.
    pub(crate) fn put(&mut self, value: V)
        requires { self.old.ready ≡ true }
        ensures { self.new ≡ record {
          held = (self.old.next, value) ∷ self.old.held;
          next = self.old.next + 1;
          ready = false;
        } }
    {
        // A place that is there takes no memory.
        let Ok(_) = self.inner.insert(Reverse(self.next), Some(value)) else {
            unreachable!();
        };
        self.next += 1;
        self.ready = false;
    }

    /// Takes the value of a number out, if there is one.
    pub(crate) fn remove(&mut self, number: u64)
        ensures { self.new ≡ record self.old {
          held = filter (λ e. not (e.0 == number)) self.old.held;
        } }
    {
        if number < self.next {
            take_place(&mut self.inner, number);
        }
    }
}

impl Numbered<Sent> {
    /// Whether one of the messages is this call's. They are gone through.
    pub(crate) fn are_owned(&self, call: u64) -> bool
        ensures { result ≡ list_any (is_owned call) (values_of self.now.held) }
    {
        are_owned_in(&self.inner, call)
    }
}

// The same of the messages at these places.
fn are_owned_in(places: &BTreeMap<Reverse<u64>, Option<Sent>>, call: u64) -> bool
    ensures { result ≡ list_any (λ e. is_owned_at call e.1) places.now.entries }
{
    for (number, place) in places.iter() {
        if is_owned_at(call, place) {
            return true;
        }
    }
    false
}

// Whether what stands at a place is a message of this call.
fn is_owned_at(call: u64, place: &Option<Sent>) -> bool
    ensures { result ≡ is_owned_at call place.now }
{
    match place {
        Some(sent) => is_owner(call, &sent.owner),
        None => false,
    }
}

// Whether an owner is this call.
fn is_owner(call: u64, owner: &Option<Owner>) -> bool
    ensures { result ≡ is_owner call owner.now }
{
    match owner {
        Some(owner) => owner.call == call,
        None => false,
    }
}

// Takes the place of a number out.
fn take_place<V: Drop>(places: &mut BTreeMap<Reverse<u64>, Option<V>>, number: u64)
    ensures { places.new.entries ≡ remove_entry (is_under number) places.old.entries }
{
    places.remove(&Reverse(number));
}
