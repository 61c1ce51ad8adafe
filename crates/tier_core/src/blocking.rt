//! A call is turned away by work on the name that it asked for.
ghost use Rattle.std.specs.Prelude.{◌≡◌, ◌≤◌, ◌↔◌, IfOk, IsTrue, OnErr, OnOk};
ghost use Rattle.tier_core.specs.Blocks.{Blocks, BlocksParts, IsFresh, MayWant, StandsOther, TellsHeld, blocked_here, told_way};
ghost use Rattle.tier_view.specs.Answers.{KeepsQuietly};

use crate::ends::end_parts;
use crate::{Group, Turn};
use obj_model::{Kind, Name, NoMemory, Path};
use store_face::Store;
use tier_calls::CallTable;
use tier_chron::{Answer, History, Logged};
use tier_flight::{Busy, Want};
use tier_traffic::Wires;

// Whether the work of this operation is not this call's, where it stands.
fn is_others(calls: &CallTable, opid: u64, call: u64) -> bool
    ensures { IsTrue result ↔ StandsOther call opid calls.now.calls.flown }
{
    match calls.standing(opid) {
        Some(flown) => flown.call != call,
        None => true,
    }
}

/// Whether a call began nothing yet.
pub(crate) fn is_fresh(history: &History, wires: &Wires, call: u64) -> bool
    ensures { IsTrue result ↔ IsFresh history.now.log wires.now.traffic call }
{
    match wires.flights().by_call(call) {
        Some(_) => false,
        None => {
            if wires.has_sent(call) {
                false
            } else {
                history.may_act(call)
            }
        }
    }
}

// What holds a call up, if anything does.
fn held_up(
    history: &History,
    calls: &CallTable,
    wires: &Wires,
    call: u64,
    name: &Name,
    want: Want,
) -> Option<Busy>
    ensures { TellsHeld history.now.log calls.now.calls wires.now.traffic call name.now want
        result }
{
    match wires.flights().busy(name, want) {
        Some(busy) => {
            if !is_fresh(history, wires, call) {
                return None;
            }
            if !is_others(calls, busy.opid, call) {
                return None;
            }
            Some(busy)
        }
        None => None,
    }
}

// The way that an answer tells of, which is chosen before reads at the base alone.
fn told_way(kind: Kind, way: Option<Path>) -> Option<Path>
    ensures { result ≡ told_way kind way }
{
    match kind {
        Kind::Read => way,
        _ => None,
    }
}

// The answer of a call that is held up.
fn blocked_here(turn: Turn, acts: u64, busy: Busy, way: Option<Path>) -> Logged
    ensures { result ≡ blocked_here turn acts busy way }
{
    Logged {
        call: turn.call,
        line: turn.line,
        begin: turn.begin,
        place: acts,
        end: acts,
        path: told_way(busy.kind, way),
        answer: Answer::Blocked {
            kind: busy.kind,
            opid: busy.opid,
        },
    }
}

// Answers a call with what holds it up, and ends it; where nothing does, nothing changes.
fn block(
    history: &mut History,
    calls: &mut CallTable,
    wires: &mut Wires,
    turn: Turn,
    busy: Option<Busy>,
    way: Option<Path>,
)
    requires { 1 ≤ history.old.spare }
    ensures { BlocksParts turn way busy history.old.log history.new.log calls.old calls.new
        wires.old wires.new }
{
    if let Some(busy) = busy {
        let acts = history.acts().len() as u64;
        let logged = blocked_here(turn, acts, busy, way);
        end_parts(history, calls, wires, turn.call, Some(logged));
    }
}

impl<P: Store> Group<P> {
    /// Answers a call in flight that began nothing yet with what holds it up, by the table of what
    /// work on a name keeps out, and ends it. Where no work of another call does, nothing changes.
    /// The way is told where reads at the base hold it up, since these alone come behind its
    /// choice. Without memory nothing changes.
    pub fn block_call(
        &mut self,
        turn: Turn,
        name: &Name,
        want: Want,
        way: Option<Path>,
    ) -> Result<Option<Busy>, NoMemory>
        requires { MayWant self.old turn name.now want way }
        ensures blocked { IfOk result (Blocks turn name.now want way self.old self.new) }
        ensures step { OnOk result (KeepsQuietly self.old self.new) }
        ensures refused { OnErr result (self.new ≡ self.old) }
    {
        let Group {
            history,
            calls,
            wires,
            ..
        } = self;
        history.reserve(1)?;
        let busy = held_up(history, calls, wires, turn.call, name, want);
        block(history, calls, wires, turn, busy, way);
        Ok(busy)
    }
}
