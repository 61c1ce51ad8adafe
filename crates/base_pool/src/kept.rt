//! The state of a name: read from the store, or still in memory from the last reading, so that an
//! object that is asked for chunk by chunk is read and decoded once, and gone through once.
ghost use Rattle.std.specs.Prelude.{◌≡◌, true, Ok, Some, IfOk};
ghost use Rattle.rec_codec.specs.Spelling.{SpellsState};
ghost use Rattle.store_face.specs.Views.{Sound};
ghost use Rattle.base_pool.specs.Steps.{Decodes, Finds, FindsValue, IsKept, Recalls};

use crate::BaseFault;
use copy_chunk::Cutter;
use obj_model::{Name, NameState};
use pool_keys::state_key;
use rec_codec::read_state;
use std::alloc::Global;
use store_face::{Store, StoreFault};

/// The state of the name that was read last, which gives its chunks.
#[derive(Debug, Drop)]
pub(crate) struct Kept {
    pub(crate) name: Name,
    pub(crate) state: Cutter,
}

impl Kept {
    /// A state of which no chunk was given.
    pub(crate) fn new(name: Name, state: NameState) -> Kept
        ensures { result ≡ record { name = name; state = state } }
    {
        Kept {
            name,
            state: Cutter::new(state),
        }
    }
}

// The state that a value spells.
fn decoded(alloc: Global, bytes: &[u8]) -> Result<Option<NameState>, StoreFault>
    ensures { Decodes (SpellsState bytes.now) result }
{
    match read_state(alloc, bytes) {
        Ok(state) => Ok(state),
        Err(_) => Err(StoreFault::NoMemory),
    }
}

/// What the store's value for a name spells, if it has one.
#[tactic(auto, using(crate::proofs::Found::find_rules))]
pub(crate) fn find_value<P: Store>(
    alloc: Global,
    store: &mut P,
    name: &Name,
) -> Result<Option<NameState>, BaseFault>
    requires live { (P.state store.old).live ≡ true }
    requires sound { Sound (P.state store.old) }
    ensures found { FindsValue name.now (P.state store.old) (P.state store.new) result }
    ensures sound { Sound (P.state store.new) }
{
    let key = state_key(alloc, name)?;
    match store.get(key.as_slice()) {
        Err(fault) => Err(BaseFault::Store(fault)),
        Ok(None) => Ok(None),
        Ok(Some(value)) => match decoded(alloc, value.as_slice()) {
            Err(fault) => Err(BaseFault::Store(fault)),
            Ok(Some(state)) => Ok(Some(state)),
            Ok(None) => Err(BaseFault::BadRecord { name: name.copy()? }),
        },
    }
}

// The state of a name, from the store.
#[tactic(auto, using(crate::proofs::Found::state_rules))]
fn find_state<P: Store>(alloc: Global, store: &mut P, name: &Name) -> Result<NameState, BaseFault>
    requires live { (P.state store.old).live ≡ true }
    requires sound { Sound (P.state store.old) }
    ensures found { Finds name.now (P.state store.old) (P.state store.new) result }
    ensures sound { Sound (P.state store.new) }
{
    match find_value(alloc, store, name) {
        Err(fault) => Err(fault),
        Ok(Some(state)) => Ok(state),
        Ok(None) => Ok(NameState::unknown(alloc)),
    }
}

// The state of a name, from the store, to be kept.
fn read_anew<P: Store>(alloc: Global, store: &mut P, name: &Name) -> Result<Kept, BaseFault>
    requires live { (P.state store.old).live ≡ true }
    requires sound { Sound (P.state store.old) }
    ensures found { Recalls name.now (P.state store.old) (P.state store.new) result }
    ensures sound { Sound (P.state store.new) }
{
    let copy = name.copy()?;
    match find_state(alloc, store, name) {
        Err(fault) => Err(fault),
        Ok(state) => Ok(Kept::new(copy, state)),
    }
}

/// The state of a name, with its name: the one that is kept, or else the store's.
pub(crate) fn recall<P: Store>(
    alloc: Global,
    store: &mut P,
    kept: Option<Kept>,
    name: &Name,
) -> Result<Kept, BaseFault>
    requires live { (P.state store.old).live ≡ true }
    requires sound { Sound (P.state store.old) }
    requires kept { IsKept (P.state store.old) kept }
    ensures found { Recalls name.now (P.state store.old) (P.state store.new) result }
    ensures sound { Sound (P.state store.new) }
{
    match kept {
        None => read_anew(alloc, store, name),
        Some(held) => {
            if held.name == *name {
                Ok(held)
            } else {
                read_anew(alloc, store, name)
            }
        }
    }
}
