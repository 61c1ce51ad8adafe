//! What can be told of a group without a change.
ghost use Rattle.std.specs.Option.{option_copied};
ghost use Rattle.std.specs.Prelude.{◌≡◌, ◌↔◌, None, IsSome, IsTrue, MatchBool, option_map};
ghost use Rattle.tier_core.specs.Steps.{IsStep};
ghost use Rattle.tier_traffic.specs.Messages.{replied_of, sent_of};
ghost use Rattle.tier_view.specs.Starts.{pool_in};
ghost use Rattle.tier_view.specs.Whole.{IsReady, IsWhole};

use crate::Group;
use crate::opening::pool_of;
use obj_model::Pool;
use std::alloc::Global;
use store_face::Store;
use tier_chron::History;
use tier_types::Phase;
use tier_view::{KeptFence, Replied, Sent};

impl<P: Store> Group<P> {
    /// What it takes memory from.
    pub fn alloc(&self) -> Global {
        self.alloc
    }

    /// What happened in the group.
    pub fn history(&self) -> &History
        ensures { result.now.log ≡ self.now.log }
    {
        &self.history
    }

    /// The cache's epoch.
    pub fn epoch(&self) -> u64
        ensures { result ≡ self.now.standing.cache_epoch }
    {
        self.start.cache_epoch
    }

    /// How far the cache has come since it was attached or stopped.
    pub fn phase(&self) -> Phase
        ensures { result ≡ self.now.standing.phase }
    {
        self.start.phase
    }

    /// Whether the base told the cache's epoch since the last stop of either.
    pub fn is_fenced(&self) -> bool
        ensures { result ≡ self.now.standing.fenced }
    {
        self.start.fenced
    }

    /// The line and the call that the last Fence keeps, if it keeps any.
    pub fn kept_fence(&self) -> Option<&KeptFence>
        ensures { option_copied result ≡ self.now.standing.kept }
    {
        self.start.kept.as_ref()
    }

    /// The message of this number, if it may still reach the base.
    pub fn message(&self, number: u64) -> Option<&Sent>
        ensures { option_copied result ≡ sent_of self.now.traffic.messages number }
    {
        self.wires.message(number)
    }

    /// The reply of this number, if it may still be received.
    pub fn reply(&self, number: u64) -> Option<&Replied>
        ensures { option_copied result ≡ replied_of self.now.traffic.replies number }
    {
        self.wires.reply_of(number)
    }

    /// Whether the cache's store can be read and changed.
    pub fn is_cache_live(&self) -> bool
        ensures { result ≡ self.now.stores.cache.live }
    {
        self.cache.is_live()
    }

    /// Whether the base can be read and changed.
    pub fn is_base_live(&self) -> bool
        ensures { result ≡ self.now.stores.base.live }
    {
        self.base.is_live()
    }

    /// Whether the cache was stopped since its store was opened last.
    pub fn is_cache_stopped(&self) -> bool
        ensures { result ≡ self.now.stores.cache_stopped }
    {
        self.cache_stopped
    }

    /// Whether the base was stopped since its store was opened last.
    pub fn is_base_stopped(&self) -> bool
        ensures { result ≡ self.now.stores.base_stopped }
    {
        self.base_stopped
    }

    /// Whether there is a commit of which it is not known whether it was made.
    pub fn has_doubt(&self) -> bool
        ensures { MatchBool result (IsSome self.now.stores.pending)
            (self.now.stores.pending ≡ None) }
    {
        self.pending.is_some()
    }

    /// The pool of that commit, if there is one.
    pub fn doubt_pool(&self) -> Option<Pool>
        ensures { result ≡ option_map pool_in self.now.stores.pending }
    {
        match &self.pending {
            Some(pending) => Some(pool_of(pending)),
            None => None,
        }
    }

    /// Whether calls are served: both stores are live and were not stopped, no commit is in doubt,
    /// and the base told the epoch that the cache was raised to, since the last stop of either.
    pub fn is_ready(&self) -> bool
        ensures { IsTrue result ↔ IsReady self.now.stores self.now.standing }
    {
        let live = self.cache.is_live() && self.base.is_live();
        let runs = !self.cache_stopped && !self.base_stopped && self.pending.is_none();
        let up = matches!(&self.start.phase, Phase::Up) && self.start.fenced;
        live && runs && up
    }

    /// What always holds of a group holds of this one, and leaving it as it is is a step.
    pub fn rest(&self)
        ensures whole { IsWhole self.now }
        ensures step { IsStep None self.now self.now }
    {
        let Group {
            pending: _pending,
            ..
        } = self;
    }
}
