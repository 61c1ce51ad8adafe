//! What the base told of want of room for a proxied write.
ghost use Rattle.std.specs.Option.{option_copied, option_map};
ghost use Rattle.std.specs.Prelude.{◌≡◌, ◌≤◌};
ghost use Rattle.tier_core.specs.Lacks.{LacksParts, TellsDriven, TellsLacked, client_by, client_in, lacked_by, lacked_here, lacked_in, way_of};
ghost use Rattle.tier_flight.specs.Numbers.{IsNameBy, has_opid};

use crate::ends::end_parts;
use crate::lands::{driven_on, owner_turn, turn_by};
use crate::turns::Turn;
use obj_model::{Name, Path, Pool};
use tier_calls::CallTable;
use tier_chron::{Answer, Asked, History, Logged};
use tier_flight::Flights;
use tier_traffic::Wires;
use tier_types::BaseReply;
use tier_view::{Entry, Replied};

/// Want of room, with the numbers that show it, in bytes, and the operation that met it.
#[derive(Clone, Copy, Debug, PartialEq, Eq)]
pub(crate) struct Lacked {
    pub(crate) opid: u64,
    pub(crate) used: u64,
    pub(crate) need: u64,
    pub(crate) limit: u64,
}

// The want of room that a reply of this epoch tells of.
fn lacked_by(epoch: u64, reply: &BaseReply) -> Option<Lacked>
    ensures { result ≡ lacked_by epoch reply.now }
{
    match reply {
        BaseReply::NoSpace {
            epoch: of,
            opid,
            used,
            need,
            limit,
        } if *of == epoch => Some(Lacked {
            opid: *opid,
            used: *used,
            need: *need,
            limit: *limit,
        }),
        _ => None,
    }
}

// The same of the reply of a number, if there is one.
fn lacked_in(epoch: u64, reply: Option<&Replied>) -> Option<Lacked>
    ensures { result ≡ lacked_in epoch (option_copied reply.entry) }
{
    match reply {
        Some(replied) => lacked_by(epoch, &replied.reply),
        None => None,
    }
}

/// The calls that drive and own the write request of this operation, which was found by it.
pub(crate) fn driven_by(flights: &Flights, opid: u64, found: Option<&Name>) -> Option<(u64, u64)>
    requires { IsNameBy has_opid flights.now opid (option_copied found) }
    ensures { TellsDriven flights.now opid result }
{
    match found {
        None => None,
        Some(name) => driven_on(flights, name),
    }
}

// The turn of a client's call.
fn client_in(call: u64, entry: Option<&Entry>) -> Option<Turn>
    ensures { result ≡ client_in call (option_copied entry.entry) }
{
    match entry {
        Some(entry) => client_by(call, &entry.asked, entry.line, entry.begin),
        None => None,
    }
}

// The same from what it asked, its line and its begin.
fn client_by(call: u64, asked: &Asked, line: Option<u32>, begin: u64) -> Option<Turn>
    ensures { result ≡ client_by call asked.now line begin }
{
    match asked {
        Asked::Read { .. } => Some(Turn {
            call,
            line: line?,
            begin,
        }),
        _ => turn_by(call, asked, line, begin),
    }
}

// The way that was chosen, where a call drives its own request.
fn way_of(owner: Option<Turn>) -> Option<Path>
    ensures { result ≡ way_of owner }
{
    match owner {
        Some(_) => Some(Path::ProxyWrite),
        None => None,
    }
}

// The answer of a call whose write request met want of room.
fn lacked_here(turn: Turn, acts: u64, way: Option<Path>, lacked: Lacked) -> Logged
    ensures { result ≡ lacked_here turn acts way lacked }
{
    Logged {
        call: turn.call,
        line: turn.line,
        begin: turn.begin,
        place: acts,
        end: acts,
        path: way,
        answer: Answer::NoSpace {
            pool: Pool::Base,
            used: lacked.used,
            need: lacked.need,
            limit: lacked.limit,
        },
    }
}

/// What the client's call is answered that drives a write request, of whose want of room the reply
/// of this number tells, if it is such a reply.
pub(crate) fn lacking(
    history: &History,
    calls: &CallTable,
    wires: &Wires,
    epoch: u64,
    number: u64,
) -> Option<Logged>
    ensures { TellsLacked history.now.log calls.now.calls.entries wires.now.traffic epoch number
        result }
{
    match lacked_in(epoch, wires.reply_of(number)) {
        None => None,
        Some(lacked) => {
            let flights = wires.flights();
            match driven_by(flights, lacked.opid, flights.by_opid(lacked.opid)) {
                None => None,
                Some((driver, owner)) => match client_in(driver, calls.get(driver)) {
                    None => None,
                    Some(turn) => {
                        let way = way_of(owner_turn(calls, driver, owner));
                        let acts = history.acts().len() as u64;
                        Some(lacked_here(turn, acts, way, lacked))
                    }
                },
            }
        }
    }
}

/// The call is answered so, and is over, and the reply of this number is forgotten; without an
/// answer nothing changes.
pub(crate) fn lack(
    history: &mut History,
    calls: &mut CallTable,
    wires: &mut Wires,
    number: u64,
    logged: Option<Logged>,
) -> Option<u64>
    requires { 1 ≤ history.old.spare }
    ensures parts { LacksParts logged number history.old.log history.new.log calls.old calls.new
        wires.old wires.new }
    ensures call { result ≡ option_map (λ l. l.call) logged }
{
    match logged {
        None => None,
        Some(logged) => {
            let call = logged.call;
            wires.forget_reply(number);
            end_parts(history, calls, wires, call, Some(logged));
            Some(call)
        }
    }
}
