//! A call goes on.
ghost use Rattle.std.specs.Option.{option_copied};
ghost use Rattle.std.specs.Prelude.{◌≡◌, Some};
ghost use Rattle.tier_chron.specs.declared.answer.Answer.TheVariants as answer;
ghost use Rattle.tier_core.specs.Turns.{HasTurn};
ghost use Rattle.tier_node.specs.Advancing.{Advances, AdvancesCall, may_restart, restart_of};
ghost use Rattle.tier_node.specs.Runs.{IsRun};
ghost use Rattle.tier_node.specs.Tells.{Tells};
ghost use Rattle.tier_view.specs.Answers.{KeepsQuietly};
ghost use Rattle.tier_view.specs.Calls.{entry_of};

use crate::Outcome;
use crate::telling::tell_so;
use store_face::Store;
use tier_chron::{Answer, Asked};
use tier_core::{Group, Turn};
use tier_view::Entry;

// Whether a call that asked this is told a start of the cache in between, by its own epoch.
fn may_restart(asked: &Asked) -> bool
    ensures { result ≡ may_restart asked.now }
{
    match asked {
        Asked::Write(_) | Asked::Read { .. } => true,
        Asked::Flush { begin_only, .. } => !*begin_only,
        Asked::Drain | Asked::Agent => true,
        Asked::Finish(_) | Asked::Evict(_) | Asked::Start => false,
    }
}

// The epoch that a call is told, where it began in an earlier one than this.
fn restart_of(epoch: u64, entry: Option<&Entry>) -> Option<u64>
    ensures { result ≡ restart_of epoch (option_copied entry.entry) }
{
    match entry {
        Some(entry) => {
            if entry.epoch < epoch && may_restart(&entry.asked) {
                Some(entry.epoch)
            } else {
                None
            }
        }
        None => None,
    }
}

// Tells a call that the cache was started in between.
fn restart<P: Store>(g: &mut Group<P>, turn: Turn, was: u64) -> Outcome
    requires turn { HasTurn g.old turn.call turn }
    requires was { Some was
        ≡ restart_of g.old.standing.cache_epoch (entry_of g.old.calls.entries turn.call) }
    ensures told { Tells turn (answer.Restarted was g.old.standing.cache_epoch) g.old g.new result }
    ensures step { KeepsQuietly g.old g.new }
{
    let now = g.epoch();
    tell_so(g, turn, Answer::Restarted { was, now })
}

// Lets a call in flight go on, where the group is ready.
fn advance_call<P: Store>(g: &mut Group<P>, turn: Turn) -> Outcome
    requires { HasTurn g.old turn.call turn }
    ensures steps { AdvancesCall turn g.old g.new result }
    ensures run { IsRun g.old g.new }
{
    if !g.is_ready() {
        return Outcome::NotReady;
    }
    match restart_of(g.epoch(), g.call(turn.call)) {
        Some(was) => restart(g, turn, was),
        None => Outcome::Going {
            call: Some(turn.call),
        },
    }
}

/// Lets a call go on, where the group is ready: one that began in an earlier epoch is told that the
/// cache was started in between, and is over. What a call of the present epoch does then, as to send
/// its message again, is not built yet: nothing changes.
pub(crate) fn advance<P: Store>(g: &mut Group<P>, call: u64) -> Outcome
    ensures steps { Advances call g.old g.new result }
    ensures run { IsRun g.old g.new }
{
    match g.turn_of(call) {
        Some(turn) => advance_call(g, turn),
        None => Outcome::Nothing,
    }
}
