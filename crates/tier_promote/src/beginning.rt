//! A promotion begins.
ghost use Rattle.std.specs.FinMap as fin;
ghost use Rattle.std.specs.Prelude.{◌≡◌, ◌+◌, None, IfOk, OnErr, OnOk, length};
ghost use Rattle.tier_flight.specs.Numbers.{IsNewBy, IsSingle, has_call, has_opid};
ghost use Rattle.tier_promote.specs.Begins.{new_promotion, promotion_flies, promotion_flown, work_flies};
ghost use Rattle.tier_types.specs.Flights.{name_asked};
ghost use Rattle.tier_view.specs.Changes.{with_flown};

use copy_chunk::{Cursor, Gather};
use obj_model::{Kind, Name, NoMemory};
use std::alloc::Global;
use tier_calls::CallTable;
use tier_flight::{Ask, Flight};
use tier_traffic::Wires;
use tier_types::BaseMsg;
use tier_view::Flown;

/// The name that a client asks about.
pub fn name_asked(ask: &Ask) -> &Name
    ensures { result.now ≡ name_asked ask.now }
{
    match ask {
        Ask::Write(req) => &req.name,
        Ask::Read { name, .. } => name,
    }
}

// Puts work on a free name and sends a message for its call, which awaits the reply. Answers the
// message's number. Without memory nothing changes.
fn fly(
    wires: &mut Wires,
    call: u64,
    name: &Name,
    work: Flight,
    message: BaseMsg,
) -> Result<u64, NoMemory>
    requires free { fin.get wires.old.traffic.flights name.now ≡ None }
    requires single { IsSingle work }
    requires operation { IsNewBy has_opid wires.old.traffic.flights work }
    requires caller { IsNewBy has_call wires.old.traffic.flights work }
    ensures number { IfOk result (λ number. number ≡ wires.old.traffic.next_message) }
    ensures flies { OnOk result
        (wires.new.traffic ≡ work_flies call name.now work message wires.old.traffic) }
    ensures refused { OnErr result (wires.new.traffic ≡ wires.old.traffic) }
{
    let key = name.copy()?;
    wires.add(key, work)?;
    match wires.send_for(call, message, None) {
        Ok(number) => Ok(number),
        Err(_) => {
            wires.remove(name);
            Err(NoMemory)
        }
    }
}

/// Begins the promotion of the name that a call asks about, under the operation's number that comes
/// next, at this number of answers, and asks for its first chunk. The call awaits the reply. Answers
/// the message's number. Without memory nothing changes.
pub fn begin_promotion(
    alloc: Global,
    calls: &mut CallTable,
    wires: &mut Wires,
    call: u64,
    epoch: u64,
    opid: u64,
    now: u64,
    ask: Ask,
) -> Result<u64, NoMemory>
    requires next { opid + calls.old.earlier ≡ length calls.old.calls.flown + 1 }
    requires free { fin.get wires.old.traffic.flights (name_asked ask) ≡ None }
    requires operation { IsNewBy has_opid wires.old.traffic.flights
        (new_promotion call opid ask) }
    requires caller { IsNewBy has_call wires.old.traffic.flights (new_promotion call opid ask) }
    ensures number { IfOk result (λ number. number ≡ wires.old.traffic.next_message) }
    ensures calls { OnOk result
        (calls.new.calls ≡ with_flown (promotion_flown call opid now ask) calls.old.calls) }
    ensures earlier { calls.new.earlier ≡ calls.old.earlier }
    ensures wires { OnOk result
        (wires.new.traffic ≡ promotion_flies call epoch opid ask wires.old.traffic) }
    ensures calls_stay { OnErr result (calls.new.calls ≡ calls.old.calls) }
    ensures wires_stay { OnErr result (wires.new.traffic ≡ wires.old.traffic) }
{
    let asked = name_asked(&ask).copy()?;
    let listed = asked.copy()?;
    let name = asked.copy()?;
    calls.reserve_work(1)?;
    let message = BaseMsg::GetChunk {
        epoch,
        opid,
        name: asked,
        at: Cursor::Head,
    };
    let work = Flight::Promote {
        call,
        opid,
        gather: Gather::new(alloc),
        ask,
    };
    let number = fly(wires, call, &name, work, message)?;
    calls.work_comes(Flown {
        call,
        kind: Kind::Promote,
        name: listed,
        opid,
        came: now,
        went: None,
    });
    Ok(number)
}
