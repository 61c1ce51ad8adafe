//! The names that the agent may take, kept from step to step, so that a pick reads no row.
ghost use Rattle.std.specs.Prelude.{◌≡◌, true, OnErr, OnOk};
ghost use Rattle.std.specs.Option.{option_copied};
ghost use Rattle.agent_pick.specs.Indexes.{drop_name, first_if, first_in, first_wanted, IsMoved, is_evicting, is_flushing, is_plain, lesser, next_of, no_names, put_name};

use agent_state::{EvictMode, FlushMode, Modes};
use obj_model::{Name, NameMap, NoMemory};
use std::alloc::Global;
use std::marker::Model;

/// The names of records on which no work is unfinished, the dirty ones and the clean ones apart. It
/// is told of each change of a record and of its work.
#[derive(Drop)]
pub struct PickIndex {
    dirty: NameMap<()>,
    clean: NameMap<()>,
}

impl Model for PickIndex {
    ghost use Rattle.agent_pick.specs.Indexes.{Ready, coded_ready};

    ghost Value = { Ready };

    ghost coded = { coded_ready };

    ghost view = { λ i. record { dirty = i.dirty; clean = i.clean } };
}

impl PickIndex {
    /// No names.
    pub fn new(alloc: Global) -> PickIndex
        ensures { result ≡ no_names }
    {
        PickIndex {
            dirty: NameMap::new(alloc),
            clean: NameMap::new(alloc),
        }
    }

    /// The record of this name is dirty, or clean, and it is not busy. Without memory nothing
    /// changes.
    pub fn put(&mut self, name: &Name, dirty: bool) -> Result<(), NoMemory>
        ensures put { OnOk result (self.new ≡ put_name name.now dirty self.old) }
        ensures refused { OnErr result (self.new ≡ self.old) }
    {
        if dirty {
            move_name(&mut self.clean, &mut self.dirty, name)
        } else {
            move_name(&mut self.dirty, &mut self.clean, name)
        }
    }

    /// There is no record of this name, or it is busy.
    pub fn take_out(&mut self, name: &Name)
        ensures { self.new ≡ drop_name name.now self.old }
    {
        self.dirty.remove(name);
        self.clean.remove(name);
    }

    /// The name that a pass over the rows would pick, where neither age nor temperature decides. It
    /// costs a few searches in sets of names.
    pub fn next(&self, cursor: Option<&Name>, modes: &Modes) -> Option<&Name>
        requires { is_plain modes.now.flush modes.now.evict ≡ true }
        ensures { option_copied result ≡ next_of self.now (option_copied cursor.entry) modes.now }
    {
        match first_wanted(self, cursor, modes) {
            Some(name) => Some(name),
            None => first_wanted(self, None, modes),
        }
    }
}

// The first name above this one of which the agent wants something.
fn first_wanted<'a>(index: &'a PickIndex, after: Option<&Name>, modes: &Modes) -> Option<&'a Name>
    ensures { option_copied result ≡ first_wanted index.now modes.now (option_copied after.entry) }
{
    let dirty = first_if(flushes(modes.flush), after, &index.dirty);
    let clean = first_if(evicts(modes.evict), after, &index.clean);
    lesser(dirty, clean)
}

/// Whether neither age nor temperature decides in these modes, so that an index gives the pick.
pub fn is_plain(modes: &Modes) -> bool
    ensures { result ≡ is_plain modes.now.flush modes.now.evict }
{
    match (modes.flush, modes.evict) {
        (FlushMode::Low, EvictMode::Idle) | (_, EvictMode::Some) => false,
        (_, EvictMode::Idle | EvictMode::Full) => true,
    }
}

// Whether dirty records are flushed.
fn flushes(mode: FlushMode) -> bool
    ensures { result ≡ is_flushing mode }
{
    match mode {
        FlushMode::Idle => false,
        FlushMode::Low | FlushMode::High => true,
    }
}

// Whether clean records are evicted.
fn evicts(mode: EvictMode) -> bool
    ensures { result ≡ is_evicting mode }
{
    match mode {
        EvictMode::Idle | EvictMode::Some => false,
        EvictMode::Full => true,
    }
}

// Moves a name from one set to the other, or into it. Without memory nothing changes.
fn move_name(from: &mut NameMap<()>, to: &mut NameMap<()>, name: &Name) -> Result<(), NoMemory>
    ensures moved { OnOk result (IsMoved name.now from.old from.new to.old to.new) }
    ensures refused { OnErr result ((from.new ≡ from.old) × (to.new ≡ to.old)) }
{
    let copy = name.copy()?;
    to.insert(copy, ())?;
    from.remove(name);
    Ok(())
}

// The first name above this one, where it is wanted.
fn first_if<'a>(wanted: bool, after: Option<&Name>, set: &'a NameMap<()>) -> Option<&'a Name>
    ensures { option_copied result ≡ first_if wanted (option_copied after.entry) set.now }
{
    if wanted { first_in(after, set) } else { None }
}

// The first name above this one.
fn first_in<'a>(after: Option<&Name>, set: &'a NameMap<()>) -> Option<&'a Name>
    ensures { option_copied result ≡ first_in (option_copied after.entry) set.now }
{
    match set.iter_above(after).next() {
        Some((name, _)) => Some(name),
        None => None,
    }
}

// The lesser name.
fn lesser<'a>(one: Option<&'a Name>, other: Option<&'a Name>) -> Option<&'a Name>
    ensures { option_copied result ≡ lesser (option_copied one.entry) (option_copied other.entry) }
{
    match (one, other) {
        (None, other) => other,
        (Some(one), None) => Some(one),
        (Some(one), Some(other)) => { if other < one { Some(other) } else { Some(one) } }
    }
}
