//! A message is delivered to the base.
ghost use Rattle.std.specs.List.{AllByRecursion};
ghost use Rattle.std.specs.Prelude.{◌≡◌, ◌≤◌, ◌+◌, nat_lt, true, None, Err, OnOk};
ghost use Rattle.base_pool.specs.Serves.{IsMsg};
ghost use Rattle.base_pool.specs.Views.{IsLive, SoundBase};
ghost use Rattle.tier_chron.specs.Logs.{acted_log};
ghost use Rattle.tier_core.specs.Deliveries.{IsDelivered};
ghost use Rattle.tier_core.specs.Served.{HandsOver, delivered_as, doubt_behind, is_void, log_behind, log_told, told_by, touched, traffic_told};
ghost use Rattle.tier_core.specs.Stakes.{HasRoom, act_by, chance_doubt, stake_doubt};

use crate::Group;
use crate::stakes::{Chance, Stake, find_stake};
use base_pool::{Base, BaseFault};
use obj_model::{NoMemory, Pool, Reply};
use std::alloc::Global;
use store_face::{Store, StoreFault};
use tier_chron::{Act, History};
use tier_traffic::Wires;
use tier_types::{BaseActed, BaseReply};
use tier_view::Pending;

/// What came of a message that was to be delivered.
#[derive(Debug, Drop)]
pub enum Delivered {
    /// The base replied. The reply stands on the wire under this number.
    Carried(u64),
    /// The base told a want of room with numbers by which there is room. That is no reply.
    Void,
    /// The base did not serve the message, with this fault.
    Failed(BaseFault),
    /// There was not the memory. The base was not asked to serve the message.
    NoMemory,
    /// There is no message of this number.
    Nothing,
}

// Whether so much is above a limit.
fn is_above(used: u64, need: u64, limit: u64) -> bool
    ensures { result ≡ nat_lt limit (used + need) }
{
    match used.checked_add(need) {
        Some(sum) => limit < sum,
        None => true,
    }
}

// Whether it is a want of room with numbers by which there is room.
fn is_void(reply: &BaseReply) -> bool
    ensures { result ≡ is_void reply.now }
{
    match reply {
        BaseReply::NoSpace {
            used,
            need,
            limit,
            ..
        } => !is_above(*used, *need, *limit),
        _ => false,
    }
}

// The act that a Write was, with this reply.
fn push_chance(history: &mut History, chance: Chance, reply: Reply)
    requires { 1 ≤ history.old.spare }
    ensures { history.new.log ≡ acted_log chance.first (act_by chance reply) history.old.log }
{
    let Chance {
        first,
        call,
        line,
        req,
        ..
    } = chance;
    history.push_act(
        first,
        Act {
            call,
            line,
            req,
            reply,
        },
    );
}

// An act that is told enters the history.
fn push_told(history: &mut History, stake: Stake, reply: &BaseReply)
    requires { HasRoom stake history.old.spare }
    ensures { history.new.log ≡ log_told reply.now stake history.old.log }
{
    match stake {
        Stake::Plain(_) => {}
        Stake::Acts(chance) => match reply {
            BaseReply::Wrote {
                acted: BaseActed::Fresh(answer),
                ..
            } => push_chance(history, chance, *answer),
            _ => {}
        },
    }
}

// What is in doubt over an act.
fn chance_doubt(chance: Chance) -> Option<Pending>
    ensures { result ≡ chance_doubt chance chance.fresh }
{
    let Chance {
        first,
        call,
        line,
        req,
        fresh,
    } = chance;
    match fresh {
        None => None,
        Some(fresh) => Some(Pending::Act {
            pool: Pool::Base,
            first,
            act: Act {
                call,
                line,
                req,
                reply: fresh.reply,
            },
            seq: fresh.seq,
        }),
    }
}

// What is in doubt over what is at stake.
fn stake_doubt(stake: Stake) -> Option<Pending>
    ensures { result ≡ stake_doubt stake }
{
    match stake {
        Stake::Plain(doubt) => doubt,
        Stake::Acts(chance) => chance_doubt(chance),
    }
}

// Where the disk failed, what is at stake is in doubt.
fn leave_doubt(pending: &mut Option<Pending>, stake: Stake, fault: &BaseFault)
    ensures { pending.new ≡ doubt_behind (Err fault.now) stake pending.old }
{
    match fault {
        BaseFault::Store(StoreFault::Disk) => {
            *pending = stake_doubt(stake);
        }
        _ => {}
    }
}

// What the base's answer makes of the history, of the doubt and of the wire.
fn settle(
    pending: &mut Option<Pending>,
    history: &mut History,
    wires: &mut Wires,
    stake: Stake,
    number: u64,
    answer: Result<BaseReply, BaseFault>,
) -> Delivered
    requires wire { wires.old.reply_room ≡ true }
    requires room { HasRoom stake history.old.spare }
    ensures log { history.new.log ≡ log_behind answer stake history.old.log }
    ensures pending { pending.new ≡ doubt_behind answer stake pending.old }
    ensures traffic { wires.new.traffic
        ≡ traffic_told number (told_by answer) wires.old.traffic }
    ensures outcome { result ≡ delivered_as wires.old.traffic.next_reply answer }
{
    match answer {
        Err(fault) => {
            leave_doubt(pending, stake, &fault);
            Delivered::Failed(fault)
        }
        Ok(reply) => {
            push_told(history, stake, &reply);
            if is_void(&reply) {
                Delivered::Void
            } else {
                Delivered::Carried(wires.reply(number, reply))
            }
        }
    }
}

// Takes memory for a reply.
fn ready(wires: &mut Wires) -> Result<(), NoMemory>
    ensures same { wires.new.traffic ≡ wires.old.traffic }
    ensures ok { OnOk result (wires.new.reply_room ≡ true) }
{
    wires.reserve_reply()
}

// Hands a message to the base, and takes its reply onto the wire. Memory for both is taken first.
fn hand_over<P: Store>(
    alloc: Global,
    base: &mut Base<P>,
    epoch: &mut u64,
    pending: &mut Option<Pending>,
    history: &mut History,
    wires: &mut Wires,
    number: u64,
) -> Delivered
    requires live { IsLive base.old }
    requires sound { SoundBase base.old }
    requires lawful { AllByRecursion (λ s. IsMsg s.message) wires.old.traffic.messages }
    ensures sound { SoundBase base.new }
    ensures parts { HandsOver number
        (touched base.old epoch.old pending.old history.old.log wires.old.traffic)
        (touched base.new epoch.new pending.new history.new.log wires.new.traffic) result }
{
    let room = ready(wires);
    let Some(sent) = wires.message(number) else {
        return Delivered::Nothing;
    };
    let Ok(()) = room else {
        return Delivered::NoMemory;
    };
    match find_stake(alloc, base, history, sent) {
        Err(outcome) => outcome,
        Ok(stake) => {
            let answer = base.serve(alloc, &sent.message);
            *epoch = base.epoch();
            settle(pending, history, wires, stake, number, answer)
        }
    }
}

impl<P: Store> Group<P> {
    /// Hands the message of this number to the base, and takes the base's reply onto the wire. The
    /// message stays there, so it may be delivered again.
    ///
    /// A Write of the base's epoch that acts enters the history as its owner's act; where the disk
    /// fails over it the act is in doubt, and so is the epoch of a Fence, or the name of an
    /// installation. All memory is taken before the base serves the message.
    pub fn deliver(&mut self, number: u64) -> Delivered
        requires live { self.old.stores.base.live ≡ true }
        requires settled { self.old.stores.pending ≡ None }
        ensures { IsDelivered number self.old self.new result }
    {
        let Group {
            alloc,
            base,
            pending,
            history,
            wires,
            start,
            ..
        } = self;
        hand_over(
            *alloc,
            base,
            &mut start.base_epoch,
            pending,
            history,
            wires,
            number,
        )
    }
}
