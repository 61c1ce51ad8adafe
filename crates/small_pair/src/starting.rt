//! Stops and starts of the cache.
ghost use Rattle.std.specs.Prelude.{◌≡◌, true};
ghost use Rattle.tier_protocol.specs.Moves.{stopped_cache, MayGoUp};
ghost use Rattle.small_pair.specs.Steps.{GoesUp, Raises};

use crate::SmallPair;
use obj_model::NameMap;
use std::alloc::Global;
use tier_types::{BaseReply, Phase};

impl SmallPair {
    /// Stops the cache: what was under way is dropped, and the messages stay.
    pub fn stop_cache(&mut self, alloc: Global)
        ensures { self.new ≡ stopped_cache self.old }
    {
        self.flights = NameMap::new(alloc);
        self.phase = Phase::Down;
        self.fenced = false;
    }

    /// Raises the cache's epoch above those of both pools, where the cache is not up, and says
    /// whether it did.
    pub fn raise(&mut self) -> bool
        ensures { Raises self.old result self.new }
    {
        let above = self.cache_epoch.max(self.base_epoch);
        if self.is_up() || above == u64::MAX {
            return false;
        }
        self.cache_epoch = above + 1;
        self.next_opid = 1;
        self.phase = Phase::Raised;
        self.fenced = false;
        true
    }

    /// Receives the reply at this place, and says whether the cache is up by it: it tells that the
    /// base holds the cache's epoch.
    pub fn go_up(&mut self, at: usize) -> bool
        ensures { GoesUp self.old result self.new }
    {
        if !self.may_go_up(at) {
            return false;
        }
        self.phase = Phase::Up;
        self.fenced = true;
        true
    }

    // Whether the cache was raised, and the reply tells that the base holds its epoch.
    #[tactic(auto, using(crate::proofs::Lists::is_in))]
    fn may_go_up(&self, at: usize) -> bool
        ensures { result ≡ true → MayGoUp self.now.net }
    {
        if matches!(&self.phase, Phase::Down) {
            return false;
        }
        match self.replies.get(at) {
            Some(BaseReply::Fenced { epoch }) => *epoch == self.cache_epoch,
            _ => false,
        }
    }
}
