//! A write request goes to the base.
ghost use Rattle.std.specs.FinMap as fin;
ghost use Rattle.std.specs.Prelude.{◌≡◌, ◌+◌, ◌<◌, ◌^◌, None, Some, length, IfOk, OnErr, OnOk};
ghost use Rattle.obj_model.specs.declared.tier.Kind.TheVariants as kind;
ghost use Rattle.tier_core.specs.Proxies.{MayGo, counted, write_begun, write_flies};
ghost use Rattle.tier_flight.specs.Numbers.{IsIdle, IsNewBy, has_call, has_opid};
ghost use Rattle.tier_join.specs.Promises.{as_it_is};
ghost use Rattle.tier_types.specs.declared.flight.Flight.TheVariants as flight;
ghost use Rattle.tier_view.specs.Changes.{with_flown};
ghost use Rattle.tier_view.specs.Laws.{Keeps};

use crate::parts::Start;
use crate::{Group, Turn};
use obj_model::{Kind, NoMemory, Req};
use store_face::Store;
use tier_calls::CallTable;
use tier_flight::Flight;
use tier_traffic::Wires;
use tier_types::BaseMsg;
use tier_view::{Flown, Owner};

// Puts a write request on its name and sends its Write, whose reply the call awaits. Answers the
// message's number. Without memory nothing changes.
fn fly_write(
    wires: &mut Wires,
    turn: Turn,
    epoch: u64,
    opid: u64,
    req: Req,
) -> Result<u64, NoMemory>
    requires free { fin.get wires.old.traffic.flights req.name ≡ None }
    requires operation { IsNewBy has_opid wires.old.traffic.flights
        (flight.Write (Some turn.call) turn.call opid req) }
    requires caller { IsNewBy has_call wires.old.traffic.flights
        (flight.Write (Some turn.call) turn.call opid req) }
    ensures number { IfOk result (λ number. number ≡ wires.old.traffic.next_message) }
    ensures flies { OnOk result
        (wires.new.traffic ≡ write_flies turn epoch opid req wires.old.traffic) }
    ensures refused { OnErr result (wires.new.traffic ≡ wires.old.traffic) }
{
    let name = req.name.copy()?;
    let key = req.name.copy()?;
    let message = BaseMsg::Write {
        epoch,
        opid,
        req: req.copy()?,
    };
    let owner = Owner {
        call: turn.call,
        line: turn.line,
    };
    let work = Flight::Write {
        driver: Some(turn.call),
        owner: turn.call,
        opid,
        req,
    };
    wires.add(key, work)?;
    match wires.send_for(turn.call, message, Some(owner)) {
        Ok(number) => Ok(number),
        Err(_) => {
            wires.remove(&name);
            Err(NoMemory)
        }
    }
}

// Begins a write request in the tables, at this number of answers, under the next operation's
// number, and sends it. Answers the message's number. Without memory, or when all numbers of
// operations were given, nothing changes.
fn begin_parts(
    calls: &mut CallTable,
    wires: &mut Wires,
    start: &mut Start,
    turn: Turn,
    req: Req,
    now: u64,
) -> Result<u64, NoMemory>
    requires next { start.old.next_opid + calls.old.earlier ≡ length calls.old.calls.flown + 1 }
    requires free { fin.get wires.old.traffic.flights req.name ≡ None }
    requires operation { IsNewBy has_opid wires.old.traffic.flights
        (flight.Write (Some turn.call) turn.call start.old.next_opid req) }
    requires caller { IsNewBy has_call wires.old.traffic.flights
        (flight.Write (Some turn.call) turn.call start.old.next_opid req) }
    ensures number { IfOk result (λ number. number ≡ wires.old.traffic.next_message) }
    ensures calls { OnOk result (calls.new.calls ≡ with_flown (record {
      call = turn.call;
      kind = kind.Write;
      name = req.name;
      opid = start.old.next_opid;
      came = now;
      went = None;
    }) calls.old.calls) }
    ensures earlier { calls.new.earlier ≡ calls.old.earlier }
    ensures wires { OnOk result (wires.new.traffic
        ≡ write_flies turn start.old.cache_epoch start.old.next_opid req wires.old.traffic) }
    ensures start { OnOk result (start.new ≡ counted start.old) }
    ensures calls_stay { OnErr result (calls.new.calls ≡ calls.old.calls) }
    ensures wires_stay { OnErr result (wires.new.traffic ≡ wires.old.traffic) }
    ensures start_stays { OnErr result (start.new ≡ start.old) }
{
    if start.next_opid == u64::MAX {
        return Err(NoMemory);
    }
    let name = req.name.copy()?;
    calls.reserve_work(1)?;
    let number = fly_write(wires, turn, start.cache_epoch, start.next_opid, req)?;
    calls.work_comes(Flown {
        call: turn.call,
        kind: Kind::Write,
        name,
        opid: start.next_opid,
        came: now,
        went: None,
    });
    start.next_opid += 1;
    Ok(number)
}

impl<P: Store> Group<P> {
    /// Begins the write request of a call in flight on a name without a record and without work,
    /// and sends its Write to the base: both are one step. The call awaits the reply, and drives
    /// the request. Answers the message's number. Without memory, or when all numbers of operations
    /// were given, nothing changes.
    pub fn begin_write(&mut self, turn: Turn, req: Req) -> Result<u64, NoMemory>
        requires { MayGo self.old turn req }
        ensures number { IfOk result (λ number. number ≡ self.old.traffic.next_message) }
        ensures begun { OnOk result (self.new ≡ write_begun turn req self.old) }
        ensures step { OnOk result (Keeps as_it_is None self.old self.new) }
        ensures refused { OnErr result (self.new ≡ self.old) }
    {
        let Group {
            history,
            calls,
            wires,
            start,
            ..
        } = self;
        let now = history.answers().len() as u64;
        begin_parts(calls, wires, start, turn, req, now)
    }
}
