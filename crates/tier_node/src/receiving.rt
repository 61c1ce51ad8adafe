//! A reply is received.
ghost use Rattle.std.specs.Option.{option_copied, option_map};
ghost use Rattle.std.specs.Prelude.{◌≡◌, None, IfOk, OnErr};
ghost use Rattle.tier_node.specs.Replies.{topic_of, topic_in, call_kept, is_fence};
ghost use Rattle.tier_node.specs.Runs.{IsRun};
ghost use Rattle.tier_node.specs.Steps.{HearsFence, HearsFenced, Receives, ReceivesLack, ReceivesWrite, TakesLack, TakesWrite, TellsHeard, told_lacked, told_landed};

use crate::Outcome;
use crate::keeping::{refusal_in, refuse_kept};
use store_face::Store;
use tier_core::{Group, Heard, Landing};
use tier_types::{BaseMsg, BaseReply};
use tier_view::{Replied, Sent};

/// What a reply is about.
#[derive(Clone, Copy, Debug, PartialEq, Eq)]
pub(crate) enum Topic {
    /// It answers a Fence.
    Fence,
    /// It tells what became of a write request.
    Write,
    /// It tells of want of room for work.
    Room,
    /// It is about other work.
    Other,
}

// Whether it is a Fence.
fn is_fence(sent: Option<&Sent>) -> bool
    ensures { result ≡ is_fence (option_copied sent.entry) }
{
    match sent {
        Some(sent) => matches!(&sent.message, BaseMsg::Fence { .. }),
        None => false,
    }
}

// What a reply is about, by the message that it answers, where that is not forgotten.
fn topic_of(sent: Option<&Sent>, reply: &BaseReply) -> Topic
    ensures { result ≡ topic_of (option_copied sent.entry) reply.now }
{
    match reply {
        BaseReply::Fenced { .. } => Topic::Fence,
        BaseReply::NoSpace { opid: 0, .. } => Topic::Fence,
        BaseReply::NoSpace { .. } => Topic::Room,
        BaseReply::OldEpoch { .. } | BaseReply::NotFenced { .. } if is_fence(sent) => Topic::Fence,
        BaseReply::Wrote { .. } => Topic::Write,
        _ => Topic::Other,
    }
}

// What the reply of this number is about, if there is one.
fn topic_in<P: Store>(g: &Group<P>, number: u64) -> Option<Topic>
    ensures { result ≡ topic_in g.now.traffic number }
{
    let replied = g.reply(number)?;
    Some(topic_of(g.message(replied.answers), &replied.reply))
}

// The call that the last Fence keeps, if it keeps any.
fn call_kept<P: Store>(g: &Group<P>) -> Option<u64>
    ensures { result ≡ call_kept g.now.standing.kept }
{
    match g.kept_fence() {
        Some(kept) => kept.call,
        None => None,
    }
}

// What is told of a reply that was heard, where the Fence kept this call.
fn told_heard<P: Store>(g: &Group<P>, heard: Heard, call: Option<u64>) -> Outcome
    ensures { TellsHeard heard call g.now result }
{
    match heard {
        Heard::Other => Outcome::Nothing,
        _ if g.is_ready() => Outcome::Ready,
        _ => Outcome::Going { call },
    }
}

// Hears a reply that answers a Fence, and does not refuse it.
fn hear_fenced<P: Store>(g: &mut Group<P>, reply: u64) -> Outcome
    ensures steps { HearsFenced reply g.old g.new result }
    ensures run { IsRun g.old g.new }
{
    let call = call_kept(g);
    let heard = g.hear_fenced(reply);
    told_heard(g, heard, call)
}

// Hears a reply that answers a Fence. Where it refuses a Fence of the cache's epoch, those whom the
// last Fence keeps are told so.
fn hear_fence<P: Store>(g: &mut Group<P>, reply: u64) -> Outcome
    ensures steps { HearsFence reply g.old g.new result }
    ensures run { IsRun g.old g.new }
{
    g.rest();
    match refusal_in(g, reply) {
        Some(refusal) => refuse_kept(g, refusal),
        None => hear_fenced(g, reply),
    }
}

// What is told of a reply to a write request.
fn told_landed(landing: Landing) -> Outcome
    ensures { result ≡ told_landed landing }
{
    match landing {
        Landing::Answered { call } => Outcome::Answered { call },
        Landing::GoesOn { call } => Outcome::Going { call: Some(call) },
        Landing::Nothing => Outcome::Nothing,
    }
}

// Takes a reply that tells what became of a write request.
fn take_write<P: Store>(g: &mut Group<P>, reply: u64) -> Outcome
    requires settled { g.old.stores.pending ≡ None }
    ensures steps { TakesWrite reply g.old g.new result }
    ensures run { IsRun g.old g.new }
{
    match g.land_write(reply) {
        Ok(landing) => told_landed(landing),
        Err(_) => Outcome::NoMemory,
    }
}

// What is told of a want of room for a write request, by the call that was answered so.
fn told_lacked(call: Option<u64>) -> Outcome
    ensures { result ≡ told_lacked call }
{
    match call {
        None => Outcome::Nothing,
        Some(call) => Outcome::Answered { call },
    }
}

// Takes a reply that tells of want of room for work: a call is told so that drives a write request.
fn take_lack<P: Store>(g: &mut Group<P>, reply: u64) -> Outcome
    ensures steps { TakesLack reply g.old g.new result }
    ensures run { IsRun g.old g.new }
{
    match g.lack_write(reply) {
        Ok(call) => told_lacked(call),
        Err(_) => Outcome::NoMemory,
    }
}

// Takes a reply that tells what became of a write request, if one is under way that a call drives.
fn receive_write<P: Store>(g: &mut Group<P>, reply: u64) -> Outcome
    ensures steps { ReceivesWrite reply g.old g.new result }
    ensures run { IsRun g.old g.new }
{
    if !g.tells_landing(reply) {
        return Outcome::Nothing;
    }
    if g.is_ready() {
        take_write(g, reply)
    } else {
        Outcome::NotReady
    }
}

// Takes a reply that tells of want of room for work, if that is a write request under way that a
// client's call drives.
fn receive_lack<P: Store>(g: &mut Group<P>, reply: u64) -> Outcome
    ensures steps { ReceivesLack reply g.old g.new result }
    ensures run { IsRun g.old g.new }
{
    if !g.tells_lack(reply) {
        return Outcome::Nothing;
    }
    if g.is_ready() {
        take_lack(g, reply)
    } else {
        Outcome::NotReady
    }
}

/// Takes the reply of a number. One that answers a Fence is heard at any moment; one to work that
/// waits for it is taken where the group is ready.
pub(crate) fn receive<P: Store>(g: &mut Group<P>, reply: u64) -> Outcome
    ensures steps { Receives reply g.old g.new result }
    ensures run { IsRun g.old g.new }
{
    match topic_in(g, reply) {
        Some(Topic::Fence) => hear_fence(g, reply),
        Some(Topic::Write) => receive_write(g, reply),
        Some(Topic::Room) => receive_lack(g, reply),
        Some(Topic::Other) | None => Outcome::Nothing,
    }
}
