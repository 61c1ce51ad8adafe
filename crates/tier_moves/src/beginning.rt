//! A client's call begins.
ghost use Rattle.std.specs.FinMap as fin;
ghost use Rattle.std.specs.Prelude.{◌≡◌, ◌≤◌, length};
ghost use Rattle.tier_core.specs.Held.{entries_limit};
ghost use Rattle.tier_core.specs.Keeps.{MayBeAsked};
ghost use Rattle.tier_core.specs.Serves.{asked_of};
ghost use Rattle.tier_moves.specs.Asks.{writes};
ghost use Rattle.tier_moves.specs.Begins.{BeginsBy, BeginsEntered, ClientBegins, EntersCall, IsEnteredNow, IsStepOf};
ghost use Rattle.tier_moves.specs.Stands.{stand_of};
ghost use Rattle.tier_runs.specs.Runs.{IsOneStep};
ghost use Rattle.tier_types.specs.Flights.{name_asked};
ghost use Rattle.tier_view.specs.Whole.{IsReady, IsWhole};

use crate::asking::{asked_of, is_lawful, name_asked, writes};
use crate::ending::{acts_of, drop_as, fail};
use crate::serving::serve;
use crate::standing::{Stand, stand_of};
use crate::turning::turn_away;
use crate::{Begun, Unbuilt};
use obj_model::NUMBER_LIMIT;
use store_face::Store;
use tier_chron::{Answer, Asked};
use tier_core::{Fullness, Group, Turn};
use tier_types::Ask;

// Goes on with a call that was entered just now, by what the work on its name means for it.
fn begin_by<P: Store>(g: &mut Group<P>, turn: Turn, ask: &Ask, stand: Stand) -> Begun
    requires entered { IsEnteredNow g.old turn ask.now }
    requires stands { stand ≡ stand_of (fin.get g.old.traffic.flights (name_asked ask.now))
        (writes ask.now) }
    ensures begun { BeginsBy stand turn ask.now g.old g.new result }
    ensures step { IsStepOf g.old g.new }
{
    match stand {
        Stand::Clear => serve(g, turn, ask),
        Stand::HeldUp => turn_away(g, turn, ask),
        Stand::Left => drop_as(g, turn, Begun::Unbuilt(Unbuilt::Adoption)),
        Stand::Behind => drop_as(g, turn, Begun::Unbuilt(Unbuilt::Reads)),
    }
}

// Goes on with a call that was entered just now: where numbers had come to their end before, it is
// told so.
fn begin_entered<P: Store>(g: &mut Group<P>, turn: Turn, ask: &Ask, worn: bool) -> Begun
    requires { IsEnteredNow g.old turn ask.now }
    ensures begun { BeginsEntered worn turn ask.now g.old g.new result }
    ensures step { IsStepOf g.old g.new }
{
    if worn {
        let told = Answer::Worn {
            limit: NUMBER_LIMIT,
        };
        return fail(g, turn, None, told);
    }
    let stand = stand_of(g.work_on(name_asked(ask)), writes(ask));
    begin_by(g, turn, ask, stand)
}

// Enters a call that asks this, and goes on with it.
fn enter_as<P: Store>(g: &mut Group<P>, line: u32, ask: &Ask, asked: Asked) -> Begun
    requires ready { IsReady g.old.stores g.old.standing }
    requires lawful { MayBeAsked (asked_of ask.now) }
    requires few { length g.old.log.answers ≤ entries_limit }
    requires same { asked ≡ asked_of ask.now }
    ensures enters { EntersCall line ask.now g.old g.new result }
    ensures step { IsOneStep g.old g.new }
{
    g.rest();
    let begin = acts_of(g);
    let worn = g.is_worn();
    match g.enter_call(Some(line), asked) {
        Ok(call) => begin_entered(g, Turn { call, line, begin }, ask, worn),
        Err(_) => Begun::NoMemory,
    }
}

// Enters a call, and goes on with it.
fn enter<P: Store>(g: &mut Group<P>, line: u32, ask: &Ask) -> Begun
    requires ready { IsReady g.old.stores g.old.standing }
    requires lawful { MayBeAsked (asked_of ask.now) }
    requires few { length g.old.log.answers ≤ entries_limit }
    ensures enters { EntersCall line ask.now g.old g.new result }
    ensures step { IsOneStep g.old g.new }
{
    g.rest();
    match asked_of(ask) {
        Ok(asked) => enter_as(g, line, ask, asked),
        Err(_) => Begun::NoMemory,
    }
}

/// Begins a client's call on this line: its first step. What is no client's is refused first; then
/// a history that is full, and a group that is not ready, where no call is entered. A call that is
/// entered is told Worn where numbers have come to their end, and else goes by the work on its
/// name: it is turned away, or served from the record of its name. A fault that it meets there is
/// its answer; without memory it ends without one.
///
/// Without a record, behind reads of its name that are with the base, and behind a write request
/// that was left, it is not served yet: it ends without an answer.
pub fn client_begin<P: Store>(g: &mut Group<P>, line: u32, ask: Ask) -> Begun
    ensures begins { ClientBegins line ask g.old g.new result }
    ensures step { IsOneStep g.old g.new }
{
    g.rest();
    if !is_lawful(&ask) {
        return Begun::Unlawful;
    }
    match g.history_full() {
        Some(Fullness { entries, bytes }) => Begun::HistoryFull { entries, bytes },
        None if g.is_ready() => enter(g, line, &ask),
        None => Begun::NotReady,
    }
}
