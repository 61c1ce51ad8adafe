//! What the base told of a proxied write, and what its landing makes of the tables.
ghost use Rattle.std.specs.FinMap as fin;
ghost use Rattle.std.specs.Option.{option_copied};
ghost use Rattle.std.specs.Prelude.{◌≡◌, ◌≤◌, Some, IfOk, MatchOption};
ghost use Rattle.tier_core.specs.Ends.{calls_gone};
ghost use Rattle.tier_core.specs.Lands.{IsDriven, IsOwn, IsOwnFor, IsTold, IsUndriven, IsUntold, LandsParts, LandsTold, driven_by, driven_on, landed_here, owner_turn, told_answer, turn_by, turn_in, wires_landed, wrote_by, wrote_in};
ghost use Rattle.tier_flight.specs.Numbers.{IsNameBy, has_opid};
ghost use Rattle.tier_view.specs.Answered.{kept_answer};

use crate::ends::end_parts;
use crate::landing::Landing;
use crate::turns::Turn;
use crate::writing::own_answer;
use obj_model::{NUMBER_LIMIT, Name, NoMemory, Path, Reply};
use tier_calls::CallTable;
use tier_chron::{Act, Answer, Asked, History, Logged};
use tier_flight::{Flight, Flights};
use tier_traffic::Wires;
use tier_types::{BaseActed, BaseReply};
use tier_view::{Entry, Replied};

/// What the base told of a write request, and of which operation.
#[derive(Debug, Drop)]
pub(crate) struct Wrote {
    pub(crate) opid: u64,
    pub(crate) acted: BaseActed,
}

/// The same, with the name of the work, and the calls that drive and own it.
#[derive(Debug, Drop)]
pub(crate) struct Told {
    pub(crate) wrote: Wrote,
    pub(crate) name: Name,
    pub(crate) driver: u64,
    pub(crate) owner: u64,
}

/// The own act of a call: its number, and its reply.
#[derive(Debug, Drop)]
pub(crate) struct Own {
    pub(crate) place: u64,
    pub(crate) reply: Reply,
}

// An equal value.
fn copy_acted(acted: &BaseActed) -> BaseActed
    ensures { result ≡ acted.now }
{
    match acted {
        BaseActed::Fresh(given) => BaseActed::Fresh(*given),
        BaseActed::Again(given) => BaseActed::Again(*given),
        BaseActed::Stale { kept } => BaseActed::Stale { kept: *kept },
        BaseActed::Worn { limit } => BaseActed::Worn { limit: *limit },
    }
}

// What a reply of this epoch tells of a write request.
fn wrote_by(epoch: u64, reply: &BaseReply) -> Option<Wrote>
    ensures { result ≡ wrote_by epoch reply.now }
{
    match reply {
        BaseReply::Wrote {
            epoch: of,
            opid,
            acted,
        } if *of == epoch => Some(Wrote {
            opid: *opid,
            acted: copy_acted(acted),
        }),
        _ => None,
    }
}

/// The same of the reply of a number, if there is one.
pub(crate) fn wrote_in(epoch: u64, reply: Option<&Replied>) -> Option<Wrote>
    ensures { result ≡ wrote_in epoch (option_copied reply.entry) }
{
    match reply {
        Some(replied) => wrote_by(epoch, &replied.reply),
        None => None,
    }
}

// The calls that drive and own the write request that this work is, if a call drives it.
fn driven_by(flight: &Flight) -> Option<(u64, u64)>
    ensures { result ≡ driven_by flight.now }
{
    match flight {
        Flight::Write {
            driver: Some(driver),
            owner,
            ..
        } => Some((*driver, *owner)),
        _ => None,
    }
}

/// The calls that drive and own the write request that is the work on a name, if a call drives one.
pub(crate) fn driven_on(flights: &Flights, name: &Name) -> Option<(u64, u64)>
    ensures { result ≡ driven_on (fin.get flights.now name.now) }
{
    match flights.get(name) {
        Some(flight) => driven_by(flight),
        None => None,
    }
}

// The write request that is this operation and that a call drives, with what was told of it.
fn told_on(flights: &Flights, wrote: Wrote, found: Option<&Name>) -> Result<Option<Told>, NoMemory>
    requires { IsNameBy has_opid flights.now wrote.opid (option_copied found) }
    ensures { IfOk result (λ told. MatchOption told (IsUndriven flights.now wrote)
        (IsDriven flights.now wrote)) }
{
    match found {
        None => Ok(None),
        Some(name) => match driven_on(flights, name) {
            None => Ok(None),
            Some((driver, owner)) => Ok(Some(Told {
                wrote,
                name: name.copy()?,
                driver,
                owner,
            })),
        },
    }
}

/// The write request under way that the reply of this number tells of, if a call drives it.
pub(crate) fn told_of(wires: &Wires, epoch: u64, number: u64) -> Result<Option<Told>, NoMemory>
    ensures { IfOk result (λ told. MatchOption told (IsUntold wires.now.traffic epoch number)
        (IsTold wires.now.traffic epoch number)) }
{
    match wrote_in(epoch, wires.reply_of(number)) {
        None => Ok(None),
        Some(wrote) => {
            let flights = wires.flights();
            let found = flights.by_opid(wrote.opid);
            told_on(flights, wrote, found)
        }
    }
}

// The turn of a call of this number that asked a write request.
fn turn_in(call: u64, entry: Option<&Entry>) -> Option<Turn>
    ensures { result ≡ turn_in call (option_copied entry.entry) }
{
    match entry {
        Some(entry) => turn_by(call, &entry.asked, entry.line, entry.begin),
        None => None,
    }
}

/// The same from what it asked, its line and its begin.
pub(crate) fn turn_by(call: u64, asked: &Asked, line: Option<u32>, begin: u64) -> Option<Turn>
    ensures { result ≡ turn_by call asked.now line begin }
{
    match asked {
        Asked::Write(_) => Some(Turn {
            call,
            line: line?,
            begin,
        }),
        _ => None,
    }
}

/// The turn of the owner of a write request, where it drives it and asked a write request.
pub(crate) fn owner_turn(calls: &CallTable, driver: u64, owner: u64) -> Option<Turn>
    ensures { result ≡ owner_turn driver owner calls.now.calls.entries }
{
    if driver == owner {
        turn_in(owner, calls.get(owner))
    } else {
        None
    }
}

// The own act of a call. Its acts are looked through from the last one back: this costs a step for
// each act that came since.
fn own_act(call: u64, acts: &[Act]) -> Option<Own>
    ensures { IsOwn call acts.now result }
{
    let mut place = acts.len();
    while place > 0 {
        let act = &acts[place - 1];
        if act.call == call {
            return Some(Own {
                place: place as u64,
                reply: act.reply,
            });
        }
        place -= 1;
    }
    None
}

// The answer to a request of which the base told that it was answered before.
fn kept_answer(reply: Reply) -> Answer
    ensures { result ≡ kept_answer reply }
{
    match reply {
        Reply::Done { ver } => Answer::Done { ver, kept: true },
        Reply::Refused { at, why, ver } => Answer::Refused {
            at,
            why,
            ver,
            kept: true,
        },
    }
}

// What the base told of a request, as an answer.
fn told_answer(acted: BaseActed) -> Answer
    ensures { result ≡ told_answer acted }
{
    match acted {
        BaseActed::Fresh(given) => kept_answer(given),
        BaseActed::Again(given) => kept_answer(given),
        BaseActed::Stale { kept } => Answer::Stale { kept },
        BaseActed::Worn { .. } => Answer::Worn {
            limit: NUMBER_LIMIT,
        },
    }
}

// A call's own act, where the base told that its request acted just now.
fn own_for(call: u64, acts: &[Act], acted: &BaseActed) -> Option<Own>
    ensures { IsOwnFor call acts.now acted.now result }
{
    match acted {
        BaseActed::Fresh(_) => own_act(call, acts),
        _ => None,
    }
}

// The answer of the owner of a write request that landed.
fn landed_here(turn: Turn, acts: u64, acted: BaseActed, own: Option<Own>) -> Logged
    ensures { result ≡ landed_here turn acts acted own }
{
    let (place, answer) = match own {
        Some(own) => (own.place, own_answer(own.reply)),
        None => (acts, told_answer(acted)),
    };
    Logged {
        call: turn.call,
        line: turn.line,
        begin: turn.begin,
        place,
        end: acts,
        path: Some(Path::ProxyWrite),
        answer,
    }
}

// The work of a write request goes, at this number of answers, with the reply of this number.
fn land_work(calls: &mut CallTable, wires: &mut Wires, number: u64, told: &Told, now: u64)
    ensures calls { calls.new ≡ calls_gone now (Some told.now.wrote.opid) calls.old }
    ensures wires { wires.new ≡ wires_landed told.now.name number wires.old }
{
    calls.work_goes(told.wrote.opid, now);
    wires.remove(&told.name);
    wires.forget_reply(number);
}

/// What was told of a write request makes it land, by the reply of this number; where nothing was,
/// nothing changes.
pub(crate) fn land_told(
    history: &mut History,
    calls: &mut CallTable,
    wires: &mut Wires,
    number: u64,
    told: Option<Told>,
) -> Landing
    requires { 1 ≤ history.old.spare }
    ensures { LandsTold told number history.old.log history.new.log calls.old calls.new wires.old
        wires.new result }
{
    match told {
        Some(told) => land(history, calls, wires, number, told),
        None => Landing::Nothing,
    }
}

// A write request lands by the reply of this number. Its owner is answered, where it drives it,
// and is over; else the call that drives it goes on.
fn land(
    history: &mut History,
    calls: &mut CallTable,
    wires: &mut Wires,
    number: u64,
    told: Told,
) -> Landing
    requires { 1 ≤ history.old.spare }
    ensures { LandsParts told number history.old.log history.new.log calls.old calls.new wires.old
        wires.new result }
{
    let turn = owner_turn(calls, told.driver, told.owner);
    let now = history.answers().len() as u64;
    land_work(calls, wires, number, &told, now);
    match turn {
        Some(turn) => {
            let own = own_for(turn.call, history.acts(), &told.wrote.acted);
            let acts = history.acts().len() as u64;
            let logged = landed_here(turn, acts, told.wrote.acted, own);
            end_parts(history, calls, wires, turn.call, Some(logged));
            Landing::Answered { call: turn.call }
        }
        None => {
            wires.no_longer_await(told.driver);
            Landing::GoesOn { call: told.driver }
        }
    }
}
