//! A call ends in its first step, without an answer or with a fault.
ghost use Rattle.std.specs.Prelude.{◌≡◌, length};
ghost use Rattle.tier_moves.specs.Begins.{EndsBy, Fails, MayEndBy, MayFail};
ghost use Rattle.tier_moves.specs.Endings.{Drops, failed_here};
ghost use Rattle.tier_view.specs.Answers.{KeepsQuietly};

use crate::Begun;
use obj_model::Path;
use store_face::Store;
use tier_chron::{Answer, Logged};
use tier_core::{Group, Turn};

/// How many acts there are.
pub(crate) fn acts_of<P: Store>(g: &Group<P>) -> u64
    ensures { result ≡ length g.now.log.acts }
{
    g.history().acts().len() as u64
}

/// An answer that tells of no act, where there are so many acts.
pub(crate) fn failed_here(turn: Turn, acts: u64, way: Option<Path>, answer: Answer) -> Logged
    ensures { result ≡ failed_here turn acts way answer }
{
    Logged {
        call: turn.call,
        line: turn.line,
        begin: turn.begin,
        place: acts,
        end: acts,
        path: way,
        answer,
    }
}

/// Ends a call without an answer, and tells this.
pub(crate) fn drop_as<P: Store>(g: &mut Group<P>, turn: Turn, told: Begun) -> Begun
    ensures dropped { Drops turn told g.old g.new result }
    ensures step { KeepsQuietly g.old g.new }
{
    g.drop_call(turn.call);
    told
}

/// Ends a client's call with a fault, at the present number of acts. Without memory for the answer
/// it ends without one.
pub(crate) fn fail<P: Store>(
    g: &mut Group<P>,
    turn: Turn,
    way: Option<Path>,
    answer: Answer,
) -> Begun
    requires { MayFail g.old turn way answer }
    ensures failed { Fails turn way answer g.old g.new result }
    ensures step { KeepsQuietly g.old g.new }
{
    g.rest();
    let acts = acts_of(g);
    let logged = failed_here(turn, acts, way, answer);
    match g.fail_call(logged) {
        Ok(()) => Begun::Answered { call: turn.call },
        Err(_) => drop_as(g, turn, Begun::NoMemory),
    }
}

/// Ends a client's call by what it met: with its answer, or for want of memory without one.
pub(crate) fn end_by<P: Store>(
    g: &mut Group<P>,
    turn: Turn,
    way: Option<Path>,
    met: Option<Answer>,
) -> Begun
    requires { MayEndBy g.old turn way met }
    ensures ended { EndsBy turn way met g.old g.new result }
    ensures step { KeepsQuietly g.old g.new }
{
    match met {
        Some(answer) => fail(g, turn, way, answer),
        None => drop_as(g, turn, Begun::NoMemory),
    }
}
