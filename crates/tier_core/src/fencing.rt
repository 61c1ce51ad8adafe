//! The base is told the cache's epoch, and tells it.
ghost use Rattle.std.specs.Option.{option_copied};
ghost use Rattle.std.specs.Prelude.{◌≡◌, ◌≢◌, None, IfOk, OnErr, OnOk};
ghost use Rattle.tier_core.specs.Fences.{Hears, heard_by, start_heard, tells_fenced};
ghost use Rattle.tier_core.specs.Steps.{IsStep};
ghost use Rattle.tier_join.specs.Promises.{as_it_is};
ghost use Rattle.tier_view.specs.Laws.{Keeps};
ghost use Rattle.tier_view.specs.Starts.{fence_sent};

use crate::Group;
use crate::parts::Start;
use obj_model::NoMemory;
use store_face::Store;
use tier_types::{BaseMsg, BaseReply, Phase};
use tier_view::{KeptFence, Replied};

/// What came of a reply that was heard.
#[derive(Clone, Copy, Debug, PartialEq, Eq)]
pub enum Heard {
    /// The base holds the cache's epoch: the cache is up.
    Up,
    /// The same, to a cache that is down or from a base that is stopped: it does not count, and
    /// what the Fence keeps is forgotten.
    Uncounted,
    /// There is no such reply, or it is another. Nothing changed.
    Other,
}

// Whether a reply is Fenced of this epoch.
fn tells_fenced(epoch: u64, replied: Option<&Replied>) -> bool
    ensures { result ≡ tells_fenced epoch (option_copied replied.entry) }
{
    match replied {
        Some(replied) => match &replied.reply {
            BaseReply::Fenced { epoch: other } => *other == epoch,
            _ => false,
        },
        None => false,
    }
}

// What comes of a reply that is Fenced of the cache's epoch, or is not.
fn hear(start: &mut Start, base_stopped: bool, fenced: bool) -> Heard
    ensures heard { result ≡ heard_by start.old.phase base_stopped fenced }
    ensures start { start.new ≡ start_heard result start.old }
{
    if !fenced {
        return Heard::Other;
    }
    start.kept = None;
    if matches!(&start.phase, Phase::Down) || base_stopped {
        return Heard::Uncounted;
    }
    start.phase = Phase::Up;
    start.fenced = true;
    Heard::Up
}

impl<P: Store> Group<P> {
    /// Sends a Fence of the epoch of a cache that was raised, and answers the message's number. It
    /// keeps the line and the call of whoever sent it, in place of what another Fence kept. Without
    /// memory, or where all numbers of messages were given, nothing changes.
    pub fn send_fence(&mut self, line: Option<u32>, call: Option<u64>) -> Result<u64, NoMemory>
        requires settled { self.old.stores.pending ≡ None }
        requires raised { self.old.standing.phase ≢ Phase.Down }
        ensures number { IfOk result (λ number. number ≡ self.old.traffic.next_message) }
        ensures sent { OnOk result (self.new ≡ fence_sent line call self.old) }
        ensures step { OnOk result (Keeps as_it_is None self.old self.new) }
        ensures refused { OnErr result (self.new ≡ self.old) }
    {
        let Group { wires, start, .. } = self;
        wires.reserve_message()?;
        start.kept = Some(KeptFence { line, call });
        let fence = BaseMsg::Fence {
            epoch: start.cache_epoch,
        };
        Ok(wires.send(fence, None))
    }

    /// Hears the reply of a number, which may answer a Fence, at any moment, in a doubt too. The
    /// reply stays until it is forgotten.
    pub fn hear_fenced(&mut self, reply: u64) -> Heard
        ensures heard { Hears reply self.old self.new result }
        ensures step { IsStep None self.old self.new }
    {
        let Group {
            wires,
            start,
            base_stopped,
            ..
        } = self;
        let fenced = tells_fenced(start.cache_epoch, wires.reply_of(reply));
        hear(start, *base_stopped, fenced)
    }
}
