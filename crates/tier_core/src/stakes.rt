//! What a message may come to beside a reply: the act that a Write is, and what is in doubt where
//! the disk fails. It is found before the base serves the message, since it takes memory.
ghost use Rattle.std.specs.Option.{option_copied};
ghost use Rattle.std.specs.Prelude.{◌≡◌, ◌≤◌, IfOk, OnOk};
ghost use Rattle.base_pool.specs.Serves.{IsMsg, IsWriteReq};
ghost use Rattle.base_pool.specs.Views.{IsLive, SoundBase};
ghost use Rattle.obj_model.specs.States.{IsCounted};
ghost use Rattle.obj_ops.specs.Acts.{act};
ghost use Rattle.tier_core.specs.Stakes.{FindsStake, HasRoom, IsAtStake, IsNamed, ReadsStake, chance_of, fresh_of, own_write};
ghost use Rattle.tier_serve.specs.Unread.{fence_doubt, put_doubt, unread_doubt};

use crate::acts::prepare;
use crate::delivering::Delivered;
use base_pool::Base;
use obj_model::{Name, NameState, NoMemory, Pool, Reply, Req};
use obj_ops::{Answered, act_on};
use std::alloc::Global;
use store_face::Store;
use tier_chron::{First, History};
use tier_types::BaseMsg;
use tier_view::{Owner, Pending, Sent};

/// What an act comes to: its reply, and the `seq` of its name behind it.
#[derive(Clone, Copy, Debug, PartialEq, Eq)]
pub(crate) struct Fresh {
    pub(crate) reply: Reply,
    pub(crate) seq: u64,
}

/// The act that a Write may be, with the opening that goes with it. By the state that was read of
/// its name it acts where `fresh` is there.
#[derive(Debug, Drop)]
pub(crate) struct Chance {
    pub(crate) first: Option<First>,
    pub(crate) call: u64,
    pub(crate) line: u32,
    pub(crate) req: Req,
    pub(crate) fresh: Option<Fresh>,
}

/// What is at stake with a message.
#[derive(Debug, Drop)]
pub(crate) enum Stake {
    /// It is no act of the history. This is in doubt where the disk fails.
    Plain(Option<Pending>),
    /// It may be this act.
    Acts(Chance),
}

// Over a Fence: its epoch, where it is greater than the base's.
fn fence_doubt(have: u64, epoch: u64) -> Option<Pending>
    ensures { result ≡ fence_doubt have epoch }
{
    if have < epoch {
        Some(Pending::Epoch {
            pool: Pool::Base,
            epoch,
        })
    } else {
        None
    }
}

// Over an installation: its name, where it is of the base's epoch.
fn put_doubt(have: u64, epoch: u64, name: &Name) -> Result<Option<Pending>, NoMemory>
    ensures { IfOk result (λ doubt. doubt ≡ put_doubt have epoch name.now) }
{
    if epoch == have {
        Ok(Some(Pending::Plain {
            pool: Pool::Base,
            name: name.copy()?,
        }))
    } else {
        Ok(None)
    }
}

// Over a message whose name was not read.
fn unread_doubt(have: u64, message: &BaseMsg) -> Result<Option<Pending>, NoMemory>
    ensures { IfOk result (λ doubt. doubt ≡ unread_doubt have message.now) }
{
    match message {
        BaseMsg::Fence { epoch } => Ok(fence_doubt(have, *epoch)),
        BaseMsg::Install { epoch, name, .. } => put_doubt(have, *epoch, name),
        BaseMsg::GetChunk { .. } | BaseMsg::Look { .. } | BaseMsg::Write { .. } => Ok(None),
    }
}

// What a request comes to that acts on this state, if it acts.
fn fresh_on(alloc: Global, state: NameState, req: &Req) -> Result<Option<Fresh>, NoMemory>
    requires counted { IsCounted state }
    requires lawful { IsWriteReq req.now }
    ensures { IfOk result (λ fresh. fresh ≡ fresh_of (act state req.now)) }
{
    let mut state = state;
    match act_on(alloc, &mut state, req)? {
        Answered::Fresh { reply } => Ok(Some(Fresh {
            reply,
            seq: state.seq,
        })),
        Answered::Again { .. } | Answered::Stale { .. } | Answered::Worn { .. } => Ok(None),
    }
}

// The act that a Write of this owner may be, with memory for it.
fn chance_of(
    alloc: Global,
    history: &mut History,
    owner: &Owner,
    req: &Req,
    state: NameState,
) -> Result<Chance, NoMemory>
    requires counted { IsCounted state }
    requires lawful { IsWriteReq req.now }
    ensures same { history.new.log ≡ history.old.log }
    ensures room { OnOk result (1 ≤ history.new.spare) }
    ensures chance { IfOk result
        (λ chance. chance ≡ chance_of history.old.log owner.now req.now state) }
{
    let first = prepare(history, 1, &req.name, &state)?;
    let fresh = fresh_on(alloc, state, req)?;
    Ok(Chance {
        first,
        call: owner.call,
        line: owner.line,
        req: req.copy()?,
        fresh,
    })
}

// What is at stake with a Write of the base's epoch, by the state that was read of its name.
fn at_stake(
    alloc: Global,
    history: &mut History,
    owner: &Option<Owner>,
    req: &Req,
    state: NameState,
) -> Result<Stake, NoMemory>
    requires counted { IsCounted state }
    requires lawful { IsWriteReq req.now }
    ensures same { history.new.log ≡ history.old.log }
    ensures room { IfOk result (λ stake. HasRoom stake history.new.spare) }
    ensures stake { IfOk result
        (λ stake. IsAtStake history.old.log owner.now req.now state stake) }
{
    let Some(owner) = owner else {
        return Ok(Stake::Plain(None));
    };
    if history.may_act(owner.call) {
        Ok(Stake::Acts(chance_of(alloc, history, owner, req, state)?))
    } else {
        Ok(Stake::Plain(None))
    }
}

// The same, with the reading.
fn write_stake<P: Store>(
    alloc: Global,
    base: &mut Base<P>,
    history: &mut History,
    owner: &Option<Owner>,
    req: &Req,
) -> Result<Stake, Delivered>
    requires live { IsLive base.old }
    requires lawful { IsWriteReq req.now }
    ensures same { history.new.log ≡ history.old.log }
    ensures room { IfOk result (λ stake. HasRoom stake history.new.spare) }
    ensures sound { SoundBase base.new }
    ensures found { ReadsStake owner.now req.now history.old.log base.old base.new result }
{
    match base.state(alloc, &req.name) {
        Err(fault) => Err(Delivered::Failed(fault)),
        Ok(state) => match at_stake(alloc, history, owner, req, state) {
            Err(_) => Err(Delivered::NoMemory),
            Ok(stake) => Ok(stake),
        },
    }
}

// The request of a Write of the base's epoch.
fn own_write(have: u64, message: &BaseMsg) -> Option<&Req>
    ensures { option_copied result ≡ own_write have message.now }
{
    match message {
        BaseMsg::Write { epoch, req, .. } if *epoch == have => Some(req),
        _ => None,
    }
}

// That its name is lawful is a fact that the name's bytes bring along.
fn know_name(message: &BaseMsg)
    ensures { IsNamed message.now }
{
    match message {
        BaseMsg::Fence { .. } => {}
        BaseMsg::GetChunk { name, .. } => {
            let _bytes = name.bytes();
        }
        BaseMsg::Look { name, .. } => {
            let _bytes = name.bytes();
        }
        BaseMsg::Write { req, .. } => {
            let _bytes = req.name.bytes();
        }
        BaseMsg::Install { name, .. } => {
            let _bytes = name.bytes();
        }
    }
}

/// What is at stake with a message. Of a Write of the base's epoch the state of its name is read
/// first. Nothing but the base's store changes; where that was not read, or there was not the
/// memory, this is the outcome of the message.
pub(crate) fn find_stake<P: Store>(
    alloc: Global,
    base: &mut Base<P>,
    history: &mut History,
    sent: &Sent,
) -> Result<Stake, Delivered>
    requires live { IsLive base.old }
    requires lawful { IsMsg sent.now.message }
    ensures named { IsNamed sent.now.message }
    ensures same { history.new.log ≡ history.old.log }
    ensures room { IfOk result (λ stake. HasRoom stake history.new.spare) }
    ensures sound { SoundBase base.new }
    ensures found { FindsStake sent.now history.old.log base.old base.new result }
{
    know_name(&sent.message);
    let have = base.epoch();
    match own_write(have, &sent.message) {
        Some(req) => write_stake(alloc, base, history, &sent.owner, req),
        None => match unread_doubt(have, &sent.message) {
            Err(_) => Err(Delivered::NoMemory),
            Ok(doubt) => Ok(Stake::Plain(doubt)),
        },
    }
}
