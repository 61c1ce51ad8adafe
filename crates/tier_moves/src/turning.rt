//! A client's call is turned away by work on its name.
ghost use Rattle.std.specs.FinMap as fin;
ghost use Rattle.std.specs.Prelude.{◌≡◌};
ghost use Rattle.tier_moves.specs.Asks.{writes};
ghost use Rattle.tier_moves.specs.Begins.{IsEnteredNow, IsStepOf, TurnsAway};
ghost use Rattle.tier_moves.specs.Stands.{stand_of};
ghost use Rattle.tier_moves.specs.declared.standing.Stand.TheVariants.{HeldUp};
ghost use Rattle.tier_types.specs.Flights.{name_asked};

use crate::Begun;
use crate::asking::{name_asked, want_of};
use crate::ending::drop_as;
use store_face::Store;
use tier_core::{Group, Turn};
use tier_types::Ask;

/// Answers a client's call, which was entered just now, with the work that holds it up, and ends
/// it. Without memory it ends without an answer.
pub(crate) fn turn_away<P: Store>(g: &mut Group<P>, turn: Turn, ask: &Ask) -> Begun
    requires entered { IsEnteredNow g.old turn ask.now }
    requires held { stand_of (fin.get g.old.traffic.flights (name_asked ask.now)) (writes ask.now)
        ≡ HeldUp }
    ensures away { TurnsAway turn ask.now g.old g.new result }
    ensures step { IsStepOf g.old g.new }
{
    match g.block_call(turn, name_asked(ask), want_of(ask), None) {
        Ok(Some(_)) => Begun::Answered { call: turn.call },
        Ok(None) => unreachable!(),
        Err(_) => drop_as(g, turn, Begun::NoMemory),
    }
}
