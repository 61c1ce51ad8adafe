//! The objects of a base pool: each name's state stands in the pool's store under the letter N and
//! the name. The promise: a line is answered as the plain store answers it for which the pool's map
//! stands, and its act is in the store before it is answered.
ghost use Rattle.std.specs.Prelude.{◌≡◌, ℕ, IfOk, None, false, true};
ghost use Rattle.std.specs.List.{list_any};
ghost use Rattle.obj_model.specs.Names.{name_fault};
ghost use Rattle.obj_model.specs.States.{IsState};
ghost use Rattle.obj_model.specs.SubOps.{is_write};
ghost use Rattle.tier_tool.specs.Tasks.{IsTask};
ghost use Rattle.tier_tool.specs.declared.task.Task.TheVariants as line;
ghost use Rattle.log_store.specs.Commits.{SameStore};
ghost use Rattle.log_store.specs.Views.{store_of};
ghost use Rattle.store_face.specs.Views.{Sound};
ghost use Rattle.tier_tool.specs.Steps.Serving.{GoesOn, LineEnds, LineUses};
ghost use Rattle.tier_tool.specs.Costs.{state_key};
ghost use Rattle.tier_tool.specs.Steps.Pools.{line_fault, Found, IsKnown, PutUses, WasPut};
ghost use Rattle.tier_tool.specs.declared.base.LineFault.TheVariants.{NoMemory};

use crate::answers::{of_reading, replied};
use crate::task::Task;
use log_store::LogStore;
use obj_model::{Bytes, Change, Name, NameState, NoMemory, Req, Vector};
use obj_ops::{Answered, act_on, look};
use rec_codec::{read_state, write_state};
use std::alloc::Global;
use store_face::{Store, StoreFault, one_change};
use tier_chron::Answer;
use tier_outside::Disk;

/// Why a line was not carried out.
#[derive(Clone, Copy, Debug, PartialEq, Eq)]
pub enum LineFault {
    /// So much of the pool's room is used and so much more is needed, above this limit, in bytes.
    /// Nothing changed.
    NoSpace { used: u64, need: u64, limit: u64 },
    /// What the pool has under the name spells no state. Nothing changed.
    BadRecord,
    /// The pool's disk failed. The line may have acted or not.
    Disk,
    /// There was not enough memory. Nothing changed.
    NoMemory,
}

impl From<NoMemory> for LineFault {
    ghost from_gives = { λ _ fault. fault ≡ NoMemory };

    fn from(_: NoMemory) -> Self {
        LineFault::NoMemory
    }
}

/// Carries a line out on a live store, and tells whether it acted. A kept, stale or worn answer
/// changes nothing and writes nothing.
#[tactic(auto, using(crate::proofs::Going::log_stood_still))]
pub fn answer<D: Disk + Drop>(
    alloc: Global,
    pool: &mut LogStore<D>,
    line: &Task,
) -> Result<(Answer, bool), LineFault>
    requires live { (store_of pool.old).live ≡ true }
    requires sound { Sound (store_of pool.old) }
    requires lawful { IsTask line.now }
    ensures ended { LineEnds line.now (store_of pool.old) (store_of pool.new) result }
    ensures uses { LineUses line.now pool.old pool.new result }
    ensures same { SameStore pool.old pool.new }
    ensures goes_on { GoesOn (store_of pool.old) (store_of pool.new) }
{
    match line {
        Task::Op(req) => request(alloc, pool, req),
        Task::Get { name, vector, .. } => reading(alloc, pool, name, vector),
    }
}

// Carries a write request out, on the state of its name where it lies.
#[tactic(auto, using(crate::proofs::Views::goes_further, crate::proofs::Going::log_stood_still))]
fn request<D: Disk + Drop>(
    alloc: Global,
    pool: &mut LogStore<D>,
    req: &Req,
) -> Result<(Answer, bool), LineFault>
    requires live { (store_of pool.old).live ≡ true }
    requires sound { Sound (store_of pool.old) }
    requires lawful { IsTask (line.Op req.now) }
    ensures ended { LineEnds (line.Op req.now) (store_of pool.old) (store_of pool.new) result }
    ensures uses { LineUses (line.Op req.now) pool.old pool.new result }
    ensures same { SameStore pool.old pool.new }
    ensures goes_on { GoesOn (store_of pool.old) (store_of pool.new) }
{
    let mut state = state_of(alloc, pool, &req.name)?;
    match act_on(alloc, &mut state, req)? {
        Answered::Fresh { reply } => {
            put_state(alloc, pool, &req.name, &state)?;
            Ok((replied(reply, false), true))
        }
        Answered::Again { reply } => Ok((replied(reply, true), false)),
        Answered::Stale { kept } => Ok((Answer::Stale { kept }, false)),
        Answered::Worn { limit } => Ok((Answer::Worn { limit }, false)),
    }
}

// Reads from a name.
fn reading<D: Disk + Drop>(
    alloc: Global,
    pool: &mut LogStore<D>,
    name: &Name,
    vector: &Vector,
) -> Result<(Answer, bool), LineFault>
    requires live { (store_of pool.old).live ≡ true }
    requires sound { Sound (store_of pool.old) }
    requires reads { list_any is_write vector.now ≡ false }
    ensures ended { (client : ℕ)
        → LineEnds (line.Get client name.now vector.now) (store_of pool.old) (store_of pool.new)
        result }
    ensures uses { (client : ℕ)
        → LineUses (line.Get client name.now vector.now) pool.old pool.new result }
    ensures same { pool.new ≡ pool.old }
{
    match state_of(alloc, pool, name) {
        Ok(state) => Ok((of_reading(look(alloc, &state, vector)?), false)),
        Err(fault) => Err(fault),
    }
}

// The key of a name's state.
fn key_of(alloc: Global, name: &Name) -> Result<Bytes, NoMemory>
    ensures key { IfOk result (λ key. key ≡ state_key name.now) }
    ensures lawful { name_fault name.now ≡ None }
{
    let bytes = name.bytes();
    let mut key = Vec::with_capacity(alloc, 1 + bytes.len())?;
    key.push(b'N')?;
    key.extend_from_slice(bytes)?;
    Ok(Bytes::from_vec(key))
}

// What a failed call of the store means for the line.
fn line_fault(fault: StoreFault) -> LineFault
    ensures { result ≡ line_fault fault }
{
    match fault {
        StoreFault::Disk => LineFault::Disk,
        StoreFault::BadImage { .. } | StoreFault::Worn { .. } => LineFault::BadRecord,
        StoreFault::NoSpace { used, need, limit } => LineFault::NoSpace { used, need, limit },
        StoreFault::NoMemory => LineFault::NoMemory,
    }
}

// The state that a value spells.
fn spelled(alloc: Global, bytes: &[u8]) -> Result<NameState, LineFault>
    ensures { IsKnown bytes.now result }
{
    match read_state(alloc, bytes)? {
        Some(state) => Ok(state),
        None => Err(LineFault::BadRecord),
    }
}

// The state of a name, which is the unknown one where the pool has no value for it.
fn state_of<D: Disk + Drop>(
    alloc: Global,
    pool: &mut LogStore<D>,
    name: &Name,
) -> Result<NameState, LineFault>
    requires live { (store_of pool.old).live ≡ true }
    ensures found { Found name.now (store_of pool.old) (store_of pool.new) result }
    ensures same { pool.new ≡ pool.old }
{
    let key = key_of(alloc, name)?;
    match pool.get(key.as_slice()) {
        Ok(Some(value)) => spelled(alloc, value.as_slice()),
        Ok(None) => Ok(NameState::unknown(alloc)),
        Err(fault) => Err(line_fault(fault)),
    }
}

// Puts a name's state into the pool.
#[tactic(auto, using(crate::proofs::Going::committed_goes_on))]
fn put_state<D: Disk + Drop>(
    alloc: Global,
    pool: &mut LogStore<D>,
    name: &Name,
    state: &NameState,
) -> Result<(), LineFault>
    requires live { (store_of pool.old).live ≡ true }
    requires sound { Sound (store_of pool.old) }
    requires lawful { IsState state.now }
    ensures put { WasPut name.now state.now (store_of pool.old) (store_of pool.new) result }
    ensures uses { PutUses name.now state.now pool.old pool.new result }
    ensures same { SameStore pool.old pool.new }
    ensures goes_on { GoesOn (store_of pool.old) (store_of pool.new) }
{
    let key = key_of(alloc, name)?;
    let value = Bytes::from_vec(write_state(alloc, state)?);
    match pool.commit(one_change(alloc, Change::Put { key, value })?) {
        Ok(()) => Ok(()),
        Err(fault) => Err(line_fault(fault)),
    }
}
