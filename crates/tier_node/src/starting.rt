//! A step of a start.
ghost use Rattle.std.specs.Prelude.{◌≡◌, ◌≤◌, true, length, Some, None};
ghost use Rattle.tier_chron.specs.Shapes.{is_start_fault};
ghost use Rattle.tier_core.specs.Held.{entries_limit};
ghost use Rattle.tier_core.specs.Turns.{HasTurn};
ghost use Rattle.tier_node.specs.Runs.{IsRun};
ghost use Rattle.tier_node.specs.Starting.{FailsCall, FailsLine, LogsIf, StartsBy, StartsCall, StartsFor, StartsLine, is_brief_in, start_answer, told_started};
ghost use Rattle.tier_node.specs.Tells.{IsSo, IsSoIf};
ghost use Rattle.tier_view.specs.Answers.{KeepsQuietly};
ghost use Rattle.tier_view.specs.Calls.{entry_of};

use crate::causes::{is_brief_in, is_untold, is_untold_to, start_answer};
use crate::telling::{drop_lacking, tell};
use crate::{Fault, Outcome};
use store_face::Store;
use tier_chron::{Answer, Asked};
use tier_core::{Fullness, Group, Turn};
use tier_stop::{StartFault, Started, start_step};

// What is told of a step of a start that was made for this call.
fn told_started(call: Option<u64>, started: Started) -> Outcome
    ensures { result ≡ told_started call started }
{
    match started {
        Started::Ready => Outcome::Ready,
        Started::Going => Outcome::Going { call },
        Started::Sent(message) => Outcome::Sent { message },
        Started::Failed(fault) => Outcome::Failed(Fault::Start(fault)),
        Started::NoMemory => Outcome::NoMemory,
    }
}

// A start for nobody.
fn start_alone<P: Store>(g: &mut Group<P>) -> Outcome
    ensures steps { StartsBy None None g.old g.new result }
    ensures run { IsRun g.old g.new }
{
    told_started(None, start_step(g, None, None))
}

// Tells a call why a step was not made.
fn fail_call<P: Store>(g: &mut Group<P>, turn: Turn, brief: bool, fault: StartFault) -> Outcome
    requires turn { HasTurn g.old turn.call turn }
    requires brief { brief ≡ is_brief_in (entry_of g.old.calls.entries turn.call) }
    requires so { length g.old.log.answers ≤ entries_limit → IsSoIf g.old (start_answer fault) }
    ensures fails { FailsCall turn brief fault g.old g.new result }
    ensures step { KeepsQuietly g.old g.new }
{
    g.rest();
    if is_untold_to(brief, &fault) {
        return Outcome::Failed(Fault::Start(fault));
    }
    match start_answer(fault) {
        Some(answer) => tell(g, turn, answer),
        None => drop_lacking(g, turn.call),
    }
}

/// Logs why a step was not made, as a call of its own on this line, which asked to start the group:
/// it is answered, and over.
pub(crate) fn log_answer<P: Store>(g: &mut Group<P>, line: u32, answer: Answer) -> Outcome
    requires kind { is_start_fault answer ≡ true }
    requires so { length g.old.log.answers ≤ entries_limit → IsSo g.old answer }
    ensures logs { LogsIf line (Some answer) g.old g.new result }
    ensures run { IsRun g.old g.new }
{
    g.rest();
    let begin = g.history().acts().len() as u64;
    match g.enter_call(Some(line), Asked::Start) {
        Ok(call) => tell(g, Turn { call, line, begin }, answer),
        Err(_) => Outcome::NoMemory,
    }
}

// The same by what was met.
fn fail_line<P: Store>(g: &mut Group<P>, line: u32, fault: StartFault) -> Outcome
    requires so { length g.old.log.answers ≤ entries_limit → IsSoIf g.old (start_answer fault) }
    ensures fails { FailsLine line fault g.old g.new result }
    ensures run { IsRun g.old g.new }
{
    if is_untold(&fault) {
        return Outcome::Failed(Fault::Start(fault));
    }
    match start_answer(fault) {
        Some(answer) => log_answer(g, line, answer),
        None => Outcome::NoMemory,
    }
}

// Makes the step of a start that is needed first, for a call in flight.
fn start_call<P: Store>(g: &mut Group<P>, line: Option<u32>, turn: Turn, brief: bool) -> Outcome
    requires turn { HasTurn g.old turn.call turn }
    requires brief { brief ≡ is_brief_in (entry_of g.old.calls.entries turn.call) }
    ensures steps { StartsCall line turn brief g.old g.new result }
    ensures run { IsRun g.old g.new }
{
    g.rest();
    match start_step(g, line, Some(turn.call)) {
        Started::Failed(fault) => fail_call(g, turn, brief, fault),
        Started::NoMemory => drop_lacking(g, turn.call),
        Started::Ready => Outcome::Ready,
        Started::Going => Outcome::Going {
            call: Some(turn.call),
        },
        Started::Sent(message) => Outcome::Sent { message },
    }
}

// The same for a line alone.
fn log_start<P: Store>(g: &mut Group<P>, line: u32) -> Outcome
    ensures steps { StartsLine line g.old g.new result }
    ensures run { IsRun g.old g.new }
{
    g.rest();
    match start_step(g, Some(line), None) {
        Started::Failed(fault) => fail_line(g, line, fault),
        Started::NoMemory => Outcome::NoMemory,
        Started::Ready => Outcome::Ready,
        Started::Going => Outcome::Going { call: None },
        Started::Sent(message) => Outcome::Sent { message },
    }
}

// The same, unless the history is full.
fn start_line<P: Store>(g: &mut Group<P>, line: u32) -> Outcome
    ensures steps { StartsFor (Some line) None g.old g.new result }
    ensures run { IsRun g.old g.new }
{
    match g.history_full() {
        Some(Fullness { entries, bytes }) => Outcome::HistoryFull { entries, bytes },
        None => log_start(g, line),
    }
}

/// Makes the step of a start that is needed first, for this line and this call. A fault is told to
/// the call, which is over then; with a line alone it is logged as a call of its own; with neither
/// it is the event's. So is a fault that cannot be told.
pub(crate) fn start<P: Store>(g: &mut Group<P>, line: Option<u32>, call: Option<u64>) -> Outcome
    ensures steps { StartsFor line call g.old g.new result }
    ensures run { IsRun g.old g.new }
{
    match (line, call) {
        (_, Some(call)) => match g.turn_of(call) {
            Some(turn) => start_call(g, line, turn, is_brief_in(g.call(call))),
            None => Outcome::Nothing,
        },
        (Some(line), None) => start_line(g, line),
        (None, None) => start_alone(g),
    }
}
