//! A moment of a store, as clauses see it: what a crash may leave. It has no bytes.
ghost use Rattle.std.specs.Prelude.{◌≡◌};
ghost use Rattle.log_store.specs.Inner.{durable_of};

use pool_map::PoolMap;
use std::snapshot::Snapshot;

/// A map, and what is used of the room for its log.
#[derive(Drop)]
pub struct Held {
    pub map: Snapshot<PoolMap>,
    pub used: Snapshot<u64>,
}

/// What a crash leaves: what was held before the changes that are under way, or after them.
#[derive(Drop)]
pub struct Moment {
    pub before: Held,
    pub after: Held,
}

impl Held {
    /// A map with what is used for it.
    pub fn of(map: &PoolMap, used: u64) -> Held
        ensures { durable_of result ≡ record { table = map.now.table; used = used } }
    {
        Held {
            map: Snapshot::of(map),
            used: Snapshot::of(&used),
        }
    }
}
