//! Each kind of message, where the base takes it.
//!
//! The state that is kept is dropped by every commit and every fault; a reading keeps it.
ghost use Rattle.std.specs.Prelude.{◌≡◌, ◌≤◌, ◌<◌, Bool, true, false, None};
ghost use Rattle.std.specs.List.{list_any};
ghost use Rattle.obj_model.specs.Limits.{number_limit};
ghost use Rattle.obj_model.specs.States.{IsState};
ghost use Rattle.obj_model.specs.SubOps.{is_write};
ghost use Rattle.obj_model.specs.declared.state.NameState.{NameState};
ghost use Rattle.obj_ops.specs.Acts.{act};
ghost use Rattle.obj_ops.specs.declared.request.Acted.TheVariants as fresh;
ghost use Rattle.store_face.specs.Views.{Holds, Sound, StoreView};
ghost use Rattle.store_face.specs.Calls.{Stays};
ghost use Rattle.tier_types.specs.declared.message.BaseMsg.TheVariants as msg;
ghost use Rattle.base_pool.specs.Serves.{IsMsg, IsWriteReq, Serves};
ghost use Rattle.base_pool.specs.Steps.{IsKept, base_of, refusal};
ghost use Rattle.base_pool.specs.Views.{Has};

use crate::BaseFault;
use crate::kept::{Kept, recall};
use crate::putting::{put_epoch, put_state, refused};
use crate::refusing::refusal;
use copy_chunk::Cursor;
use obj_model::{NUMBER_LIMIT, Name, NameState, Reply, Req, Vector};
use obj_ops::{Answered, act_on, look};
use std::alloc::Global;
use store_face::{Store, StoreFault};
use tier_types::{BaseActed, BaseMsg, BaseReply};

// Takes a Fence of no lower epoch: a greater one is in the store before it is answered.
fn fence<P: Store>(
    alloc: Global,
    store: &mut P,
    epoch: &mut u64,
    got: u64,
) -> Result<BaseReply, BaseFault>
    requires live { (P.state store.old).live ≡ true }
    requires sound { Sound (P.state store.old) }
    requires own { epoch.old ≤ got }
    ensures served { (o : Bool)
        → Serves (msg.Fence got) (base_of (P.state store.old) epoch.old o)
        (base_of (P.state store.new) epoch.new o) result }
    ensures sound { Sound (P.state store.new) }
{
    if got == *epoch {
        return Ok(BaseReply::Fenced { epoch: got });
    }
    if got > NUMBER_LIMIT {
        return Err(BaseFault::Store(StoreFault::Worn {
            limit: NUMBER_LIMIT,
        }));
    }
    match put_epoch(alloc, store, got) {
        Ok(()) => {
            *epoch = got;
            Ok(BaseReply::Fenced { epoch: got })
        }
        Err(fault) => refused(fault, got, 0),
    }
}

// Gives the chunk at a place of the name's state.
#[tactic(auto, using(crate::proofs::Readings::chunk_rules))]
fn get_chunk<P: Store>(
    alloc: Global,
    store: &mut P,
    kept: &mut Option<Kept>,
    have: u64,
    opid: u64,
    name: &Name,
    at: &Cursor,
) -> Result<BaseReply, BaseFault>
    requires live { (P.state store.old).live ≡ true }
    requires sound { Sound (P.state store.old) }
    requires kept { IsKept (P.state store.old) kept.old }
    ensures served { (o : Bool)
        → Serves (msg.GetChunk have opid name.now at.now) (base_of (P.state store.old) have o)
        (base_of (P.state store.new) have o) result }
    ensures sound { Sound (P.state store.new) }
    ensures kept { IsKept (P.state store.new) kept.new }
{
    match recall(alloc, store, kept.take(), name) {
        Err(fault) => Err(fault),
        Ok(mut held) => match held.state.chunk(alloc, at) {
            Err(_) => Err(BaseFault::Store(StoreFault::NoMemory)),
            Ok(chunk) => {
                *kept = Some(held);
                Ok(BaseReply::Chunk {
                    epoch: have,
                    opid,
                    chunk,
                })
            }
        },
    }
}

// Tells what a reading tells of the name's state.
#[tactic(auto, using(crate::proofs::Readings::look_rules))]
fn look_up<P: Store>(
    alloc: Global,
    store: &mut P,
    kept: &mut Option<Kept>,
    have: u64,
    opid: u64,
    name: &Name,
    vector: &Vector,
) -> Result<BaseReply, BaseFault>
    requires live { (P.state store.old).live ≡ true }
    requires sound { Sound (P.state store.old) }
    requires kept { IsKept (P.state store.old) kept.old }
    requires reads { list_any is_write vector.now ≡ false }
    ensures served { (o : Bool)
        → Serves (msg.Look have opid name.now vector.now) (base_of (P.state store.old) have o)
        (base_of (P.state store.new) have o) result }
    ensures sound { Sound (P.state store.new) }
    ensures kept { IsKept (P.state store.new) kept.new }
{
    match recall(alloc, store, kept.take(), name) {
        Err(fault) => Err(fault),
        Ok(held) => match look(alloc, held.state.state(), vector) {
            Err(_) => Err(BaseFault::Store(StoreFault::NoMemory)),
            Ok(looked) => {
                *kept = Some(held);
                Ok(BaseReply::Looked {
                    epoch: have,
                    opid,
                    looked,
                })
            }
        },
    }
}

// Puts the state that a request left, and then tells its reply.
#[tactic(auto, using(crate::proofs::Acting::fresh_done, crate::proofs::Acting::fresh_refused))]
fn put_fresh<P: Store>(
    alloc: Global,
    store: &mut P,
    have: u64,
    opid: u64,
    req: &Req,
    state: &NameState,
    reply: Reply,
) -> Result<BaseReply, BaseFault>
    requires live { (P.state store.old).live ≡ true }
    requires sound { Sound (P.state store.old) }
    requires lawful { IsState state.now }
    requires low { have ≤ number_limit }
    ensures served { (o : Bool) (a : StoreView) (s : NameState) → Stays a (P.state store.old)
        → IsState s → Holds a (Has req.now.name s) → act s req.now ≡ fresh.Fresh state.now reply
        → Serves (msg.Write have opid req.now) (base_of a have o)
        (base_of (P.state store.new) have o) result }
    ensures sound { Sound (P.state store.new) }
{
    match put_state(alloc, store, &req.name, state) {
        Ok(()) => Ok(BaseReply::Wrote {
            epoch: have,
            opid,
            acted: BaseActed::Fresh(reply),
        }),
        Err(fault) => refused(fault, have, opid),
    }
}

// Lets a request act on the name's state where it lies; one that it left as it was is kept.
#[tactic(auto, using(crate::proofs::Acting::write_rules))]
fn write<P: Store>(
    alloc: Global,
    store: &mut P,
    kept: &mut Option<Kept>,
    have: u64,
    opid: u64,
    req: &Req,
) -> Result<BaseReply, BaseFault>
    requires live { (P.state store.old).live ≡ true }
    requires sound { Sound (P.state store.old) }
    requires kept { IsKept (P.state store.old) kept.old }
    requires lawful { IsWriteReq req.now }
    requires low { have ≤ number_limit }
    ensures served { (o : Bool)
        → Serves (msg.Write have opid req.now) (base_of (P.state store.old) have o)
        (base_of (P.state store.new) have o) result }
    ensures sound { Sound (P.state store.new) }
    ensures kept { IsKept (P.state store.new) kept.new }
{
    match recall(alloc, store, kept.take(), &req.name) {
        Err(fault) => Err(fault),
        Ok(held) => {
            let Kept { name, state } = held;
            let mut state = state.into_state();
            match act_on(alloc, &mut state, req) {
                Err(_) => Err(BaseFault::Store(StoreFault::NoMemory)),
                Ok(Answered::Fresh { reply }) => {
                    put_fresh(alloc, store, have, opid, req, &state, reply)
                }
                Ok(Answered::Again { reply }) => {
                    *kept = Some(Kept::new(name, state));
                    Ok(BaseReply::Wrote {
                        epoch: have,
                        opid,
                        acted: BaseActed::Again(reply),
                    })
                }
                Ok(Answered::Stale { kept: tid }) => {
                    *kept = Some(Kept::new(name, state));
                    Ok(BaseReply::Wrote {
                        epoch: have,
                        opid,
                        acted: BaseActed::Stale { kept: tid },
                    })
                }
                Ok(Answered::Worn { limit }) => {
                    *kept = Some(Kept::new(name, state));
                    Ok(BaseReply::Wrote {
                        epoch: have,
                        opid,
                        acted: BaseActed::Worn { limit },
                    })
                }
            }
        }
    }
}

// Puts the state that a message brings, and then tells that it is there.
#[tactic(auto, using(crate::proofs::Acting::install_done, crate::proofs::Acting::install_refused))]
fn put_installed<P: Store>(
    alloc: Global,
    store: &mut P,
    have: u64,
    opid: u64,
    name: &Name,
    state: &NameState,
) -> Result<BaseReply, BaseFault>
    requires live { (P.state store.old).live ≡ true }
    requires sound { Sound (P.state store.old) }
    requires lawful { IsState state.now }
    requires low { have ≤ number_limit }
    ensures served { (o : Bool) (a : StoreView) (s : NameState) → Stays a (P.state store.old)
        → IsState s → Holds a (Has name.now s) → s.seq < state.now.seq
        → Serves (msg.Install have opid name.now state.now) (base_of a have o)
        (base_of (P.state store.new) have o) result }
    ensures sound { Sound (P.state store.new) }
{
    match put_state(alloc, store, name, state) {
        Ok(()) => Ok(BaseReply::Installed {
            epoch: have,
            opid,
            seq: state.seq,
        }),
        Err(fault) => refused(fault, have, opid),
    }
}

// Installs a state over one that has had fewer requests.
#[tactic(auto, using(crate::proofs::Acting::install_rules))]
fn install<P: Store>(
    alloc: Global,
    store: &mut P,
    kept: &mut Option<Kept>,
    have: u64,
    opid: u64,
    name: &Name,
    state: &NameState,
) -> Result<BaseReply, BaseFault>
    requires live { (P.state store.old).live ≡ true }
    requires sound { Sound (P.state store.old) }
    requires kept { IsKept (P.state store.old) kept.old }
    requires lawful { IsState state.now }
    requires low { have ≤ number_limit }
    ensures served { (o : Bool)
        → Serves (msg.Install have opid name.now state.now) (base_of (P.state store.old) have o)
        (base_of (P.state store.new) have o) result }
    ensures sound { Sound (P.state store.new) }
    ensures kept { IsKept (P.state store.new) kept.new }
{
    match recall(alloc, store, kept.take(), name) {
        Err(fault) => Err(fault),
        Ok(held) => {
            if held.state.state().seq < state.seq {
                put_installed(alloc, store, have, opid, name, state)
            } else {
                *kept = Some(held);
                Ok(BaseReply::Installed {
                    epoch: have,
                    opid,
                    seq: state.seq,
                })
            }
        }
    }
}

// Carries out a message that the base takes.
#[tactic(auto, using(crate::proofs::Taking::taken_as, crate::proofs::Taking::not_lower))]
fn carry_out<P: Store>(
    alloc: Global,
    store: &mut P,
    epoch: &mut u64,
    kept: &mut Option<Kept>,
    message: &BaseMsg,
) -> Result<BaseReply, BaseFault>
    requires live { (P.state store.old).live ≡ true }
    requires sound { Sound (P.state store.old) }
    requires kept { IsKept (P.state store.old) kept.old }
    requires lawful { IsMsg message.now }
    requires low { epoch.old ≤ number_limit }
    requires taken { refusal epoch.old message.now ≡ None }
    ensures served { (o : Bool)
        → Serves message.now (base_of (P.state store.old) epoch.old o)
        (base_of (P.state store.new) epoch.new o) result }
    ensures sound { Sound (P.state store.new) }
    ensures kept { IsKept (P.state store.new) kept.new }
{
    match message {
        BaseMsg::Fence { epoch: got } => {
            *kept = None;
            fence(alloc, store, epoch, *got)
        }
        BaseMsg::GetChunk { opid, name, at, .. } => {
            get_chunk(alloc, store, kept, *epoch, *opid, name, at)
        }
        BaseMsg::Look {
            opid,
            name,
            vector,
            ..
        } => look_up(alloc, store, kept, *epoch, *opid, name, vector),
        BaseMsg::Write { opid, req, .. } => write(alloc, store, kept, *epoch, *opid, req),
        BaseMsg::Install {
            opid,
            name,
            state,
            ..
        } => install(alloc, store, kept, *epoch, *opid, name, state),
    }
}

/// Answers a message.
pub(crate) fn answer<P: Store>(
    alloc: Global,
    store: &mut P,
    epoch: &mut u64,
    kept: &mut Option<Kept>,
    message: &BaseMsg,
) -> Result<BaseReply, BaseFault>
    requires live { (P.state store.old).live ≡ true }
    requires sound { Sound (P.state store.old) }
    requires kept { IsKept (P.state store.old) kept.old }
    requires lawful { IsMsg message.now }
    requires low { epoch.old ≤ number_limit }
    ensures served { (o : Bool)
        → Serves message.now (base_of (P.state store.old) epoch.old o)
        (base_of (P.state store.new) epoch.new o) result }
    ensures sound { Sound (P.state store.new) }
    ensures kept { IsKept (P.state store.new) kept.new }
{
    match refusal(*epoch, message) {
        Some(reply) => Ok(reply),
        None => carry_out(alloc, store, epoch, kept, message),
    }
}
