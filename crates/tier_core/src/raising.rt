//! The cache's epoch is raised.
ghost use Rattle.std.specs.Prelude.{◌≡◌, ◌≤◌, ◌<◌, true, false, None, MatchOption};
ghost use Rattle.std.specs.List.{AllByRecursion};
ghost use Rattle.obj_model.specs.Limits.{number_limit};
ghost use Rattle.tier_calls.specs.Turns.{HasGone};
ghost use Rattle.tier_core.specs.Raises.{Raises, calls_raised, epoch_above, pending_raised, start_raised, told_raised};
ghost use Rattle.tier_join.specs.Promises.{as_it_is};
ghost use Rattle.tier_view.specs.Laws.{Keeps};

use crate::Group;
use crate::parts::Start;
use cache_pool::{CacheFault, put_epoch, read_epoch_of};
use obj_model::{NUMBER_LIMIT, Pool};
use store_face::{Store, StoreFault};
use tier_calls::CallTable;
use tier_types::Phase;
use tier_view::Pending;

/// Why the cache's epoch was not raised.
#[derive(Debug, Drop)]
pub enum RaiseFault {
    /// The epoch above both is above this limit, 2^62. Nothing was read, and nothing changed.
    Worn { limit: u64 },
    /// The epoch that the cache has was not read. Nothing changed but its store.
    Read(CacheFault),
    /// The commit's fault. Where it is Disk, the epoch is in doubt; else nothing changed.
    Commit(StoreFault),
}

// The epoch above both, where it is within its limit.
fn next_epoch(cache_epoch: u64, base_epoch: u64) -> Option<u64>
    ensures { MatchOption result (number_limit < epoch_above cache_epoch base_epoch)
        (λ epoch. (epoch ≡ epoch_above cache_epoch base_epoch) × (epoch ≤ number_limit)) }
{
    let highest = cache_epoch.max(base_epoch);
    if highest < NUMBER_LIMIT {
        Some(highest + 1)
    } else {
        None
    }
}

// What the commit of an epoch came to: the cache is raised, and operations count from 1; or the
// epoch is in doubt; or neither.
fn finish(
    calls: &mut CallTable,
    start: &mut Start,
    pending: &mut Option<Pending>,
    epoch: u64,
    made: Result<(), StoreFault>,
)
    requires { AllByRecursion HasGone calls.old.calls.flown }
    ensures calls { calls.new ≡ calls_raised made calls.old }
    ensures start { start.new ≡ start_raised epoch made start.old }
    ensures pending { pending.new ≡ pending_raised epoch made pending.old }
{
    match made {
        Ok(()) => {
            calls.new_epoch();
            start.cache_epoch = epoch;
            start.next_opid = 1;
            start.phase = Phase::Raised;
            start.fenced = false;
        }
        Err(StoreFault::Disk) => {
            *pending = Some(Pending::Epoch {
                pool: Pool::Cache,
                epoch,
            });
        }
        Err(_) => {}
    }
}

// What is told of it.
fn told(epoch: u64, made: Result<(), StoreFault>) -> Result<u64, RaiseFault>
    ensures { result ≡ told_raised epoch made }
{
    match made {
        Ok(()) => Ok(epoch),
        Err(fault) => Err(RaiseFault::Commit(fault)),
    }
}

impl<P: Store> Group<P> {
    /// Commits the epoch above both in a cache that is down, and answers it: the cache is raised,
    /// and operations count from 1. The epoch that the cache has is read before. Where the commit's
    /// disk failed, the epoch is in doubt. With any other fault nothing changed but the cache's
    /// store, which is not live any more where the disk failed in the reading.
    pub fn raise_epoch(&mut self) -> Result<u64, RaiseFault>
        requires live { self.old.stores.cache.live ≡ true }
        requires runs { self.old.stores.cache_stopped ≡ false }
        requires settled { self.old.stores.pending ≡ None }
        requires down { self.old.standing.phase ≡ Phase.Down }
        ensures raised { Raises self.old self.new result }
        ensures step { Keeps as_it_is None self.old self.new }
    {
        let Group {
            alloc,
            cache,
            pending,
            calls,
            start,
            ..
        } = self;
        let Some(epoch) = next_epoch(start.cache_epoch, start.base_epoch) else {
            return Err(RaiseFault::Worn {
                limit: NUMBER_LIMIT,
            });
        };
        if let Err(fault) = read_epoch_of(*alloc, cache) {
            return Err(RaiseFault::Read(fault));
        }
        let made = put_epoch(*alloc, cache, epoch);
        finish(calls, start, pending, epoch, made);
        told(epoch, made)
    }
}
