//! A place in a store: its keys are read in their order, a page at a time.
ghost use Rattle.std.specs.Prelude.{◌≡◌, [], true, None};
ghost use Rattle.std.specs.Option.{option_copied};
ghost use Rattle.std.specs.Ordering.{is_lt};
ghost use Rattle.obj_model.specs.Names.{name_cmp};
ghost use Rattle.store_face.specs.Views.{Holds, Sound};
ghost use Rattle.pool_survey.specs.Places.{IsPage, is_within};
ghost use Rattle.pool_survey.specs.Steps.{Advances, HasNext, Moves, ReadsPage, Refills, Takes, place};

use obj_model::{Bytes, Items};
use std::alloc::Global;
use std::cmp::Ordering;
use std::collections::VecDeque;
use store_face::{Store, StoreFault};

// How many keys are read at a time.
const PAGE: u32 = 256;

/// The key that was passed last, and keys behind it that were read already.
#[derive(Debug, Drop)]
pub(crate) struct Cursor {
    pub(crate) passed: Option<Bytes>,
    pub(crate) page: VecDeque<Bytes>,
}

// The bytes of a key, if there is one.
fn bytes_of(key: &Option<Bytes>) -> Option<&[u8]>
    ensures { option_copied result ≡ key.now }
{
    match key {
        None => None,
        Some(key) => Some(key.as_slice()),
    }
}

// Whether a key is above a bound.
fn is_over(bound: &[u8], key: &[u8]) -> bool
    ensures { is_lt (name_cmp bound.now key.now) ≡ result }
{
    match bound.cmp(key) {
        Ordering::Less => true,
        Ordering::Equal | Ordering::Greater => false,
    }
}

// Whether a key is not above a bound.
fn is_within(bound: Option<&[u8]>, key: &[u8]) -> bool
    ensures { result ≡ is_within (option_copied bound.entry) key.now }
{
    match bound {
        None => true,
        Some(bound) => !is_over(bound, key),
    }
}

// The keys above this one, as many as are read at a time.
#[tactic(auto, using(crate::proofs::Cursors::page_rules))]
fn read_page<P: Store>(store: &mut P, after: Option<&[u8]>) -> Result<Items<Bytes>, StoreFault>
    requires live { (P.state store.old).live ≡ true }
    ensures read { ReadsPage (option_copied after.entry) (P.state store.old) (P.state store.new)
        result }
    ensures sound { Sound (P.state store.new) }
{
    store.keys_after(after, PAGE)
}

impl Cursor {
    /// A cursor before the first key.
    pub(crate) fn new(alloc: Global) -> Cursor
        ensures passed { result.passed ≡ None }
        ensures page { result.page.items ≡ [] }
    {
        Cursor {
            passed: None,
            page: VecDeque::new(alloc),
        }
    }

    /// The key that was passed last; before the first, none.
    pub(crate) fn key(&self) -> &[u8]
        ensures { result.now ≡ place self.now }
    {
        match &self.passed {
            Some(key) => key.as_slice(),
            None => &[],
        }
    }

    // Turns to a page of keys behind the place.
    fn turn_to(&mut self, keys: Items<Bytes>)
        ensures passed { self.new.passed ≡ self.old.passed }
        ensures page { self.new.page.items ≡ keys }
    {
        self.page = VecDeque::from(keys.into_vec());
    }

    // Reads a page, where none is left.
    #[tactic(auto, using(crate::proofs::Cursors::refill_rules))]
    fn refill<P: Store>(&mut self, store: &mut P) -> Result<(), StoreFault>
        requires live { (P.state store.old).live ≡ true }
        requires page { Holds (P.state store.old) (IsPage self.old.passed self.old.page.items) }
        requires sound { Sound (P.state store.old) }
        ensures refilled { Refills self.old self.new (P.state store.old) (P.state store.new) result }
        ensures sound { Sound (P.state store.new) }
    {
        if !self.page.is_empty() {
            return Ok(());
        }
        match read_page(store, bytes_of(&self.passed)) {
            Err(fault) => Err(fault),
            Ok(keys) => {
                self.turn_to(keys);
                Ok(())
            }
        }
    }

    // Whether a key of the page is next and within the bound.
    fn has_next(&self, bound: Option<&[u8]>) -> bool
        ensures { HasNext (option_copied bound.entry) self.now.page.items result }
    {
        match self.page.front() {
            None => false,
            Some(key) => is_within(bound, key.as_slice()),
        }
    }

    // Passes the next key of the page, if it is within the bound.
    fn take(&mut self, bound: Option<&[u8]>) -> bool
        ensures { Takes (option_copied bound.entry) self.old self.new result }
    {
        if !self.has_next(bound) {
            return false;
        }
        match self.page.pop_front() {
            None => false,
            Some(key) => {
                self.passed = Some(key);
                true
            }
        }
    }

    // Passes the next key of the store, if there is one within the bound.
    #[tactic(auto, using(crate::proofs::Cursors::advanced))]
    fn advance<P: Store>(&mut self, store: &mut P, bound: Option<&[u8]>) -> Result<bool, StoreFault>
        requires live { (P.state store.old).live ≡ true }
        requires page { Holds (P.state store.old) (IsPage self.old.passed self.old.page.items) }
        requires sound { Sound (P.state store.old) }
        ensures moved { Advances (option_copied bound.entry) self.old self.new (P.state store.old)
            (P.state store.new) result }
        ensures sound { Sound (P.state store.new) }
    {
        match self.refill(store) {
            Err(fault) => Err(fault),
            Ok(()) => Ok(self.take(bound)),
        }
    }
    /// Passes the next key of the store, if there is one within the bound, and reads its value.
    #[tactic(auto, using(crate::proofs::Cursors::move_rules))]
    pub(crate) fn next_value<P: Store>(
        &mut self,
        store: &mut P,
        bound: Option<&[u8]>,
    ) -> Result<Option<Option<Bytes>>, StoreFault>
        requires live { (P.state store.old).live ≡ true }
        requires page { Holds (P.state store.old) (IsPage self.old.passed self.old.page.items) }
        requires sound { Sound (P.state store.old) }
        ensures moved { Moves (option_copied bound.entry) self.old self.new (P.state store.old)
            (P.state store.new) result }
        ensures sound { Sound (P.state store.new) }
    {
        match self.advance(store, bound) {
            Err(fault) => Err(fault),
            Ok(false) => Ok(None),
            Ok(true) => match store.get(self.key()) {
                Err(fault) => Err(fault),
                Ok(value) => Ok(Some(value)),
            },
        }
    }
}
