//! What the end of a call makes of the tables.
ghost use Rattle.std.specs.Option.{option_copied};
ghost use Rattle.std.specs.Prelude.{◌≡◌, ◌≤◌, Some, length, OnErr, OnOk};
ghost use Rattle.tier_core.specs.Ends.{EndsParts, GoesWith, MayPush, calls_ended, calls_gone, wires_ended};
ghost use Rattle.tier_flight.specs.Changes.{IsDroppedIn};
ghost use Rattle.tier_flight.specs.Ends.{is_call};
ghost use Rattle.tier_flight.specs.Numbers.{HaveOneRead};
ghost use Rattle.tier_view.specs.Answers.{dropped_on, dropped_op, read_of, told_log};

use obj_model::Name;
use store_face::StoreFault;
use tier_calls::CallTable;
use tier_chron::{History, Logged};
use tier_flight::{Flight, Flights, ReadFlight};
use tier_traffic::Wires;

// Whether it is this call.
fn is_call(call: u64, other: Option<u64>) -> bool
    ensures { result ≡ is_call call other }
{
    match other {
        Some(other) => other == call,
        None => false,
    }
}

// The number of the oldest read of this call.
fn read_of(call: u64, list: &[ReadFlight]) -> Option<u64>
    ensures { result ≡ read_of call list.now }
{
    for read in list {
        if read.call == call {
            return Some(read.opid);
        }
    }
    None
}

// The number of this work, where it goes when the call ends.
fn dropped_op(call: u64, flight: &Flight) -> Option<u64>
    ensures { result ≡ dropped_op call (Some flight.now) }
{
    match flight {
        Flight::Promote {
            call: asker,
            opid,
            ..
        } if *asker == call => Some(*opid),
        Flight::Reads { list } => read_of(call, list.as_slice()),
        Flight::Flush {
            call: waiter,
            opid,
            ..
        } if is_call(call, *waiter) => Some(*opid),
        _ => None,
    }
}

// The same of the work on the name that was found, if one was.
fn dropped_on(call: u64, flights: &Flights, found: Option<&Name>) -> Option<u64>
    ensures { result ≡ dropped_on call flights.now (option_copied found.entry) }
{
    match flights.get(found?) {
        Some(flight) => dropped_op(call, flight),
        None => None,
    }
}

// The number of the work that goes with a call.
fn work_of(call: u64, flights: &Flights) -> Option<u64>
    ensures { GoesWith call flights.now result }
{
    let found = flights.by_call(call);
    dropped_on(call, flights, found)
}

// The work of this number goes at this number of answers, if there is one.
fn go(calls: &mut CallTable, dropped: Option<u64>, now: u64)
    ensures { calls.new ≡ calls_gone now dropped calls.old }
{
    if let Some(opid) = dropped {
        calls.work_goes(opid, now);
    }
}

// Logs an answer, if there is one.
fn log(history: &mut History, answer: Option<Logged>)
    requires { MayPush answer history.old.spare }
    ensures { history.new.log ≡ told_log answer history.old.log }
{
    if let Some(logged) = answer {
        history.push_answer(logged);
    }
}

// Ends a call in the tables, at this number of answers. Answers the number of the work that went.
fn end_in(calls: &mut CallTable, wires: &mut Wires, call: u64, now: u64) -> Option<u64>
    ensures goes { GoesWith call wires.old.traffic.flights result }
    ensures reads { HaveOneRead wires.old.traffic.flights }
    ensures left { IsDroppedIn call wires.old.traffic.flights wires.new.traffic.flights }
    ensures calls { calls.new ≡ calls_ended now call result calls.old }
    ensures wires { wires.new ≡ wires_ended call wires.new.traffic.flights wires.old }
{
    wires.flights().reads_are_one();
    let dropped = work_of(call, wires.flights());
    go(calls, dropped, now);
    calls.end(call);
    wires.drop_call(call);
    wires.no_longer_await(call);
    wires.forget_noted(call);
    dropped
}

/// Ends a call: its answer is logged, if there is one; its entry is over; its work is dropped or
/// left; and what it awaits and has noted is forgotten. Answers the number of the work that went.
pub(crate) fn end_parts(
    history: &mut History,
    calls: &mut CallTable,
    wires: &mut Wires,
    call: u64,
    answer: Option<Logged>,
) -> Option<u64>
    requires { MayPush answer history.old.spare }
    ensures log { history.new.log ≡ told_log answer history.old.log }
    ensures goes { GoesWith call wires.old.traffic.flights result }
    ensures reads { HaveOneRead wires.old.traffic.flights }
    ensures left { IsDroppedIn call wires.old.traffic.flights wires.new.traffic.flights }
    ensures calls { calls.new
        ≡ calls_ended (length history.old.log.answers) call result calls.old }
    ensures wires { wires.new ≡ wires_ended call wires.new.traffic.flights wires.old }
{
    let now = history.answers().len() as u64;
    log(history, answer);
    end_in(calls, wires, call, now)
}

/// The same of a call whose act was committed; where it was not, nothing changes.
pub(crate) fn end_made(
    history: &mut History,
    calls: &mut CallTable,
    wires: &mut Wires,
    logged: Logged,
    made: Result<(), StoreFault>,
)
    requires { OnOk made (1 ≤ history.old.spare) }
    ensures ended { OnOk made (EndsParts logged history.old.log history.new.log calls.old calls.new
        wires.old wires.new) }
    ensures log { OnErr made (history.new.log ≡ history.old.log) }
    ensures calls { OnErr made (calls.new ≡ calls.old) }
    ensures wires { OnErr made (wires.new ≡ wires.old) }
{
    match made {
        Ok(()) => {
            end_parts(history, calls, wires, logged.call, Some(logged));
        }
        Err(_) => {}
    }
}
