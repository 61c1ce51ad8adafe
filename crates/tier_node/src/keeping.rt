//! Those whom a Fence keeps are told that it failed, or that it was refused.
ghost use Rattle.std.specs.Option.{option_copied};
ghost use Rattle.std.specs.Prelude.{◌≡◌, ◌≤◌, ◌<◌, ◌+◌, true, length};
ghost use Rattle.tier_chron.specs.Shapes.{is_start_fault};
ghost use Rattle.tier_core.specs.Held.{entries_limit};
ghost use Rattle.tier_core.specs.Turns.{HasTurn};
ghost use Rattle.tier_node.specs.Keeping.{FailsKept, IsForAll, IsKeptWhom, IsOverIf, IsWhom, RefusesKept, RefusesWhom, TellsCall, TellsCallIf, TellsLine, TellsLineIf, base_answer, is_own_fence, is_own_sent, refusal_in, refusal_of, told_failed, told_refused};
ghost use Rattle.tier_node.specs.Runs.{IsRun};
ghost use Rattle.tier_node.specs.Tells.{IsSo, IsSoIf, MayBeTold};
ghost use Rattle.tier_node.specs.declared.keeping.Refusal.TheVariants as refusal;
ghost use Rattle.tier_node.specs.declared.keeping.Whom.TheVariants as whom;

use crate::causes::{is_brief_in, store_answer};
use crate::starting::log_answer;
use crate::telling::tell;
use crate::{Fault, Outcome};
use base_pool::BaseFault;
use obj_model::Pool;
use pool_keys::epoch_name;
use store_face::{Store, StoreFault};
use tier_chron::Answer;
use tier_core::{Group, Turn};
use tier_types::{BaseMsg, BaseReply};
use tier_view::Sent;

/// Whom a Fence keeps.
#[derive(Clone, Copy, Debug, PartialEq, Eq)]
pub(crate) enum Whom {
    /// A call in flight.
    Call(Turn),
    /// A line, without a call.
    Line(u32),
    /// Nobody, or a call that is over.
    Nobody,
}

/// How a reply refuses a Fence.
#[derive(Clone, Copy, Debug, PartialEq, Eq)]
pub(crate) enum Refusal {
    /// The base is at another epoch.
    Epoch,
    /// There is no room for the epoch: so much is used, so much more was needed, and that is the
    /// limit, in bytes.
    Room { used: u64, need: u64, limit: u64 },
}

// Whom a Fence with this line and this call keeps.
fn whom_of<P: Store>(g: &Group<P>, line: Option<u32>, call: Option<u64>) -> Whom
    ensures { IsWhom line call g.now result }
{
    match (line, call) {
        (_, Some(call)) => match g.turn_of(call) {
            Some(turn) => Whom::Call(turn),
            None => Whom::Nobody,
        },
        (Some(line), None) => Whom::Line(line),
        (None, None) => Whom::Nobody,
    }
}

// Whom the last Fence keeps.
fn whom_kept<P: Store>(g: &Group<P>) -> Whom
    ensures { IsKeptWhom g.now.standing.kept g.now result }
{
    match g.kept_fence() {
        Some(kept) => whom_of(g, kept.line, kept.call),
        None => Whom::Nobody,
    }
}

// Tells a call, which the Fence keeps no more.
fn tell_call<P: Store>(g: &mut Group<P>, turn: Turn, answer: Answer) -> Outcome
    requires may { MayBeTold g.old turn answer }
    requires so { length g.old.log.answers ≤ entries_limit → IsSo g.old answer }
    ensures tells { TellsCall turn answer g.old g.new result }
    ensures run { IsRun g.old g.new }
{
    g.forget_kept();
    tell(g, turn, answer)
}

// Logs it as a call of its own on a line, which the Fence keeps no more.
fn tell_line<P: Store>(g: &mut Group<P>, line: u32, answer: Answer) -> Outcome
    requires kind { is_start_fault answer ≡ true }
    requires so { length g.old.log.answers ≤ entries_limit → IsSo g.old answer }
    ensures tells { TellsLine line answer g.old g.new result }
    ensures run { IsRun g.old g.new }
{
    g.forget_kept();
    log_answer(g, line, answer)
}

/// Whether it is a Fence of this epoch.
pub(crate) fn is_own_fence(epoch: u64, message: &BaseMsg) -> bool
    ensures { result ≡ is_own_fence epoch message.now }
{
    match message {
        BaseMsg::Fence { epoch: of } => *of == epoch,
        _ => false,
    }
}

// The answer that tells of a fault of the base, if it is no want of memory.
fn base_answer(fault: BaseFault) -> Option<Answer>
    ensures { result ≡ base_answer fault }
{
    match fault {
        BaseFault::Store(fault) => store_answer(Pool::Base, fault),
        BaseFault::BadRecord { name } => Some(Answer::BadRecord {
            pool: Pool::Base,
            name,
        }),
    }
}

// What is told of a fault of the base where nobody is kept.
fn told_failed(fault: BaseFault) -> Outcome
    ensures { result ≡ told_failed fault }
{
    match fault {
        BaseFault::Store(StoreFault::NoMemory) => Outcome::NoMemory,
        fault => Outcome::Failed(Fault::Base(fault)),
    }
}

// Tells a call that the Fence which keeps it failed.
fn fail_call<P: Store>(g: &mut Group<P>, turn: Turn, fault: BaseFault) -> Outcome
    requires turn { HasTurn g.old turn.call turn }
    requires kind { IsForAll (base_answer fault) }
    requires so { length g.old.log.answers ≤ entries_limit → IsSoIf g.old (base_answer fault) }
    ensures tells { TellsCallIf turn (base_answer fault) g.old g.new result }
    ensures run { IsRun g.old g.new }
{
    match base_answer(fault) {
        Some(answer) => tell_call(g, turn, answer),
        None => Outcome::NoMemory,
    }
}

// Logs that the Fence failed which keeps this line.
fn fail_line<P: Store>(g: &mut Group<P>, line: u32, fault: BaseFault) -> Outcome
    requires kind { IsForAll (base_answer fault) }
    requires so { length g.old.log.answers ≤ entries_limit → IsSoIf g.old (base_answer fault) }
    ensures tells { TellsLineIf line (base_answer fault) g.old g.new result }
    ensures run { IsRun g.old g.new }
{
    match base_answer(fault) {
        Some(answer) => tell_line(g, line, answer),
        None => Outcome::NoMemory,
    }
}

/// Tells those whom the last Fence keeps that it failed, once: a call in flight, or a line as a
/// call of its own. Want of memory is told to nobody.
pub(crate) fn fail_kept<P: Store>(g: &mut Group<P>, fault: BaseFault) -> Outcome
    requires kind { IsForAll (base_answer fault) }
    requires so { length g.old.log.answers ≤ entries_limit → IsSoIf g.old (base_answer fault) }
    ensures fails { FailsKept fault g.old g.new result }
    ensures run { IsRun g.old g.new }
{
    match whom_kept(g) {
        Whom::Call(turn) => fail_call(g, turn, fault),
        Whom::Line(line) => fail_line(g, line, fault),
        Whom::Nobody => told_failed(fault),
    }
}

// Whether a message is a Fence of this epoch, where it is not forgotten.
fn is_own_sent(epoch: u64, sent: Option<&Sent>) -> bool
    ensures { result ≡ is_own_sent epoch (option_copied sent.entry) }
{
    match sent {
        Some(sent) => is_own_fence(epoch, &sent.message),
        None => false,
    }
}

// How a reply refuses a Fence of this epoch, by the message that it answers.
fn refusal_of(epoch: u64, sent: Option<&Sent>, reply: &BaseReply) -> Option<Refusal>
    ensures { result ≡ refusal_of epoch (option_copied sent.entry) reply.now }
{
    match reply {
        BaseReply::OldEpoch { .. } | BaseReply::NotFenced { .. } if is_own_sent(epoch, sent) => {
            Some(Refusal::Epoch)
        }
        BaseReply::NoSpace {
            epoch: of,
            used,
            need,
            limit,
            ..
        } if *of == epoch => Some(Refusal::Room {
            used: *used,
            need: *need,
            limit: *limit,
        }),
        _ => None,
    }
}

/// How the reply of this number refuses a Fence of the cache's epoch, if it does.
pub(crate) fn refusal_in<P: Store>(g: &Group<P>, number: u64) -> Option<Refusal>
    ensures { result ≡ refusal_in g.now.standing.cache_epoch g.now.traffic number }
{
    let replied = g.reply(number)?;
    refusal_of(g.epoch(), g.message(replied.answers), &replied.reply)
}

// Tells a call that the base is at another epoch.
fn deny_call<P: Store>(g: &mut Group<P>, turn: Turn) -> Outcome
    requires { HasTurn g.old turn.call turn }
    ensures tells { RefusesWhom (whom.Call turn) refusal.Epoch g.old g.new result }
    ensures run { IsRun g.old g.new }
{
    match epoch_name(g.alloc()) {
        Ok(name) => tell_call(
            g,
            turn,
            Answer::BadRecord {
                pool: Pool::Base,
                name,
            },
        ),
        Err(_) => Outcome::NoMemory,
    }
}

// The same for a line.
fn deny_line<P: Store>(g: &mut Group<P>, line: u32) -> Outcome
    ensures tells { RefusesWhom (whom.Line line) refusal.Epoch g.old g.new result }
    ensures run { IsRun g.old g.new }
{
    match epoch_name(g.alloc()) {
        Ok(name) => tell_line(
            g,
            line,
            Answer::BadRecord {
                pool: Pool::Base,
                name,
            },
        ),
        Err(_) => Outcome::NoMemory,
    }
}

// What is told where nobody is kept, and the base is at another epoch.
fn deny_nobody<P: Store>(g: &Group<P>) -> Outcome
    ensures { RefusesWhom whom.Nobody refusal.Epoch g.now g.now result }
{
    match epoch_name(g.alloc()) {
        Ok(name) => Outcome::Failed(Fault::Base(BaseFault::BadRecord { name })),
        Err(_) => Outcome::NoMemory,
    }
}

// What is told where nobody is told that there was no room for the epoch.
fn told_room(used: u64, need: u64, limit: u64) -> Outcome
    ensures { result ≡ told_refused (refusal.Room used need limit) }
{
    Outcome::Failed(Fault::Base(BaseFault::Store(StoreFault::NoSpace { used, need, limit })))
}

// Tells a call that there was no room for the epoch, unless it ends with its first step.
fn lack_call<P: Store>(g: &mut Group<P>, turn: Turn, used: u64, need: u64, limit: u64) -> Outcome
    requires turn { HasTurn g.old turn.call turn }
    requires over { limit < used + need }
    ensures tells { RefusesWhom (whom.Call turn) (refusal.Room used need limit) g.old g.new result }
    ensures run { IsRun g.old g.new }
{
    if is_brief_in(g.call(turn.call)) {
        return told_room(used, need, limit);
    }
    tell_call(
        g,
        turn,
        Answer::NoSpace {
            pool: Pool::Base,
            used,
            need,
            limit,
        },
    )
}

/// Tells those whom the last Fence keeps that it was refused, once: a call in flight, or a line as
/// a call of its own. Where nobody is told, it is the event's fault.
pub(crate) fn refuse_kept<P: Store>(g: &mut Group<P>, refusal: Refusal) -> Outcome
    requires { IsOverIf refusal }
    ensures refuses { RefusesKept refusal g.old g.new result }
    ensures run { IsRun g.old g.new }
{
    match (whom_kept(g), refusal) {
        (Whom::Call(turn), Refusal::Epoch) => deny_call(g, turn),
        (Whom::Line(line), Refusal::Epoch) => deny_line(g, line),
        (Whom::Line(line), Refusal::Room { used, need, limit }) => tell_line(
            g,
            line,
            Answer::NoSpace {
                pool: Pool::Base,
                used,
                need,
                limit,
            },
        ),
        (Whom::Call(turn), Refusal::Room { used, need, limit }) => {
            lack_call(g, turn, used, need, limit)
        }
        (Whom::Nobody, Refusal::Epoch) => deny_nobody(g),
        (Whom::Nobody, Refusal::Room { used, need, limit }) => told_room(used, need, limit),
    }
}
