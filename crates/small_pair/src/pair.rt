//! The pair: what it holds, and what it is seen as.
ghost use Rattle.std.specs.Prelude.{◌≡◌, ◌≢◌, false, true};
ghost use Rattle.std.specs.FinMap as map;
ghost use Rattle.tier_protocol.specs.Laws.{found};
ghost use Rattle.tier_protocol.specs.Sound.{is_dirty};
ghost use Rattle.tier_protocol.specs.Tiers.{cell_of};
ghost use Rattle.tier_types.specs.declared.phase.Phase.{Phase};

use obj_model::{Items, Name, NameMap, NameState, Req};
use std::alloc::Global;
use std::marker::Model;
use tier_types::{BaseMsg, BaseReply, Flight, Phase, TierRec};

/// Two pools in memory, with the work and the messages between them. Contracts see it as the state
/// of the protocol, and it is sound after every call.
#[derive(Drop)]
pub struct SmallPair {
    pub(crate) recs: NameMap<TierRec>,
    pub(crate) base: NameMap<NameState>,
    pub(crate) flights: NameMap<Flight>,
    pub(crate) opening: NameMap<NameState>,
    pub(crate) acts: Items<Req>,
    pub(crate) wire: Vec<BaseMsg>,
    pub(crate) replies: Vec<BaseReply>,
    pub(crate) cache_epoch: u64,
    pub(crate) base_epoch: u64,
    pub(crate) next_opid: u64,
    pub(crate) phase: Phase,
    pub(crate) fenced: bool,
}

impl Model for SmallPair {
    ghost use Rattle.tier_protocol.specs.Tiers.{Tier};
    ghost use Rattle.tier_protocol.specs.Sound.{IsSound};
    ghost use Rattle.small_pair.specs.Views.{coded_tier};

    ghost Value = { Tier };

    ghost coded = { coded_tier };

    ghost view = { λ p. record {
      recs = p.recs;
      base = p.base;
      flights = p.flights;
      opening = p.opening;
      acts = p.acts;
      net = record {
        wire = p.wire.items;
        replies = p.replies.items;
        cache_epoch = p.cache_epoch;
        base_epoch = p.base_epoch;
        next_opid = p.next_opid;
        phase = p.phase;
        fenced = p.fenced;
      };
    } };

    ghost invariant = { λ p. IsSound (record {
      recs = p.recs;
      base = p.base;
      flights = p.flights;
      opening = p.opening;
      acts = p.acts;
      net = record {
        wire = p.wire.items;
        replies = p.replies.items;
        cache_epoch = p.cache_epoch;
        base_epoch = p.base_epoch;
        next_opid = p.next_opid;
        phase = p.phase;
        fenced = p.fenced;
      };
    }) };
}

impl SmallPair {
    /// Two empty pools, of which the cache was never up.
    pub fn new(alloc: Global) -> SmallPair
        ensures { result ≡ found map.empty map.empty map.empty 0 0 }
    {
        SmallPair {
            recs: NameMap::new(alloc),
            base: NameMap::new(alloc),
            flights: NameMap::new(alloc),
            opening: NameMap::new(alloc),
            acts: Items::new(alloc),
            wire: Vec::new(alloc),
            replies: Vec::new(alloc),
            cache_epoch: 0,
            base_epoch: 0,
            next_opid: 1,
            phase: Phase::Down,
            fenced: false,
        }
    }

    // Whether the base told that it holds the cache's epoch.
    pub(crate) fn is_up(&self) -> bool
        ensures up { result ≡ true → self.now.net.phase ≡ Phase.Up }
        ensures down { result ≡ false → self.now.net.phase ≢ Phase.Up }
    {
        matches!(&self.phase, Phase::Up)
    }

    // Whether the name has a record that the base does not have.
    pub(crate) fn is_dirty(&self, name: &Name) -> bool
        ensures { result ≡ is_dirty (cell_of self.now name.now).rec }
    {
        match self.recs.get(name) {
            None => false,
            Some(rec) => rec.dirty,
        }
    }
}
