//! A call is told what it met, and is over.
ghost use Rattle.std.specs.Prelude.{◌≡◌, ◌≤◌, length};
ghost use Rattle.tier_core.specs.Held.{entries_limit};
ghost use Rattle.tier_node.specs.Tells.{Drops, IsCause, IsSo, MayBeTold, Tells};
ghost use Rattle.tier_view.specs.Answers.{KeepsQuietly};

use crate::Outcome;
use store_face::Store;
use tier_chron::{Answer, Logged};
use tier_core::{ENTRIES_LIMIT, Group, Turn};

/// Ends a call without an answer, for want of memory.
pub(crate) fn drop_lacking<P: Store>(g: &mut Group<P>, call: u64) -> Outcome
    ensures dropped { Drops call g.old g.new result }
    ensures step { KeepsQuietly g.old g.new }
{
    g.drop_call(call);
    Outcome::NoMemory
}

/// Ends a call in flight with a fault that is so, at the present number of acts. Without memory for
/// the answer it ends without one.
pub(crate) fn tell_so<P: Store>(g: &mut Group<P>, turn: Turn, answer: Answer) -> Outcome
    requires may { MayBeTold g.old turn answer }
    requires so { IsCause g.old turn answer }
    ensures told { Tells turn answer g.old g.new result }
    ensures step { KeepsQuietly g.old g.new }
{
    g.rest();
    let acts = g.history().acts().len() as u64;
    let logged = Logged {
        call: turn.call,
        line: turn.line,
        begin: turn.begin,
        place: acts,
        end: acts,
        path: None,
        answer,
    };
    match g.fail_call(logged) {
        Ok(()) => Outcome::Answered { call: turn.call },
        Err(_) => drop_lacking(g, turn.call),
    }
}

/// The same of a fault that a store met. In a history that has more answers than any history takes
/// the call ends without one.
pub(crate) fn tell<P: Store>(g: &mut Group<P>, turn: Turn, answer: Answer) -> Outcome
    requires may { MayBeTold g.old turn answer }
    requires so { length g.old.log.answers ≤ entries_limit → IsSo g.old answer }
    ensures told { Tells turn answer g.old g.new result }
    ensures step { KeepsQuietly g.old g.new }
{
    if g.history().answers().len() as u64 > ENTRIES_LIMIT {
        return drop_lacking(g, turn.call);
    }
    tell_so(g, turn, answer)
}
