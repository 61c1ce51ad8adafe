//! The cache is opened anew.
ghost use Rattle.std.specs.Prelude.{◌≡◌, true, None, Some};
ghost use Rattle.obj_model.specs.declared.change.Pool.TheVariants as pool;
ghost use Rattle.std.specs.Prelude.{length};
ghost use Rattle.store_face.specs.Views.{Sound};
ghost use Rattle.tier_core.specs.Looks.{FindsAny, FindsHere, fault_here, fault_of_sums, seq_in};
ghost use Rattle.tier_core.specs.Opens.{LooksHere, OpensCache, calls_halted, start_halted, stopped_here, wires_halted};
ghost use Rattle.tier_core.specs.Steps.{IsStep};
ghost use Rattle.tier_view.specs.Starts.{pool_in};
ghost use Rattle.tier_view.specs.declared.parts.Pending.TheVariants as pending;

use crate::Group;
use crate::opening::{Found, OpenFault, found_at, make_room, pool_of, settle};
use crate::parts::Start;
use crate::stopping::drop_cache;
use agent_state::Totals;
use cache_pool::{CacheFault, read_epoch_of, read_record};
use obj_model::{Name, Pool};
use pool_survey::{SurveyFault, sum_records};
use std::alloc::Global;
use store_face::{Store, StoreFault};
use tier_calls::CallTable;
use tier_chron::{Act, History};
use tier_traffic::Wires;
use tier_types::TierRec;
use tier_view::Pending;

// A fault of the cache, as one of its opening.
fn fault_here(fault: CacheFault) -> OpenFault
    ensures { result ≡ fault_here fault }
{
    match fault {
        CacheFault::Store(fault) => OpenFault::Store(fault),
        CacheFault::BadRecord { name } => OpenFault::BadRecord { name },
    }
}

// Why the sums were not taken, as a fault of an opening. Where the disk failed the store is not
// live, so nothing more is to be said of the sums.
fn fault_of_sums(fault: SurveyFault) -> OpenFault
    ensures { result ≡ fault_of_sums fault }
{
    match fault {
        SurveyFault::Store {
            fault: StoreFault::Disk,
            ..
        } => OpenFault::Store(StoreFault::Disk),
        fault => OpenFault::Sums(fault),
    }
}

// The `seq` of a record, if there is one.
fn seq_in(held: &Option<TierRec>) -> Option<u64>
    ensures { result ≡ seq_in held.now }
{
    match held {
        Some(held) => Some(held.state.seq),
        None => None,
    }
}

// Reads the record of a name again, to which memory is the same.
fn find_name<P: Store>(alloc: Global, cache: &mut P, name: &Name) -> Result<Found, OpenFault>
    requires live { (P.state cache.old).live ≡ true }
    requires sound { Sound (P.state cache.old) }
    ensures found { FindsHere (pending.Plain pool.Cache name.now) (P.state cache.old)
        (P.state cache.new) result }
    ensures sound { Sound (P.state cache.new) }
{
    match read_record(alloc, cache, name) {
        Err(fault) => Err(fault_here(fault)),
        Ok(_) => Ok(Found::There),
    }
}

// Whether the cache has the act in doubt, which leaves its name with this `seq`.
fn find_act<P: Store>(alloc: Global, cache: &mut P, act: &Act, seq: u64) -> Result<Found, OpenFault>
    requires live { (P.state cache.old).live ≡ true }
    requires sound { Sound (P.state cache.old) }
    ensures found { (first : _) → FindsHere (pending.Act pool.Cache first act.now seq)
        (P.state cache.old) (P.state cache.new) result }
    ensures sound { Sound (P.state cache.new) }
{
    match read_record(alloc, cache, &act.req.name) {
        Err(fault) => Err(fault_here(fault)),
        Ok(held) => Ok(found_at(seq_in(&held), seq)),
    }
}

// Whether the cache is at the epoch in doubt.
fn find_epoch<P: Store>(alloc: Global, cache: &mut P, epoch: u64) -> Result<Found, OpenFault>
    requires live { (P.state cache.old).live ≡ true }
    requires sound { Sound (P.state cache.old) }
    ensures found { FindsHere (pending.Epoch pool.Cache epoch) (P.state cache.old)
        (P.state cache.new) result }
    ensures sound { Sound (P.state cache.new) }
{
    match read_epoch_of(alloc, cache) {
        Err(fault) => Err(fault_here(fault)),
        Ok(found) => {
            if found == epoch {
                Ok(Found::There)
            } else {
                Ok(Found::Gone)
            }
        }
    }
}

// What a live cache has of the commit in doubt, which is one of the cache.
fn find_doubt<P: Store>(alloc: Global, cache: &mut P, doubt: &Pending) -> Result<Found, OpenFault>
    requires live { (P.state cache.old).live ≡ true }
    requires sound { Sound (P.state cache.old) }
    requires here { pool_in doubt.now ≡ pool.Cache }
    ensures found { FindsHere doubt.now (P.state cache.old) (P.state cache.new) result }
    ensures sound { Sound (P.state cache.new) }
{
    match doubt {
        Pending::Plain { name, .. } => find_name(alloc, cache, name),
        Pending::Act { act, seq, .. } => find_act(alloc, cache, act, *seq),
        Pending::Epoch { epoch, .. } => find_epoch(alloc, cache, *epoch),
    }
}

// What a live cache has of the commit in doubt. It is not read where none of the cache is.
fn find_here<P: Store>(
    alloc: Global,
    cache: &mut P,
    pending: &Option<Pending>,
) -> Result<Found, OpenFault>
    requires live { (P.state cache.old).live ≡ true }
    requires sound { Sound (P.state cache.old) }
    ensures found { FindsAny pending.now (P.state cache.old) (P.state cache.new) result }
    ensures sound { Sound (P.state cache.new) }
{
    match pending {
        None => Ok(Found::Nothing),
        Some(doubt) => {
            if pool_of(doubt) == Pool::Cache {
                find_doubt(alloc, cache, doubt)
            } else {
                Ok(Found::Nothing)
            }
        }
    }
}

// Opens the cache's store anew, looks for what is in doubt, and takes the sums over its records.
fn look_here<P: Store>(
    alloc: Global,
    cache: &mut P,
    pending: &Option<Pending>,
) -> Result<(Found, Totals), OpenFault>
    ensures looked { LooksHere pending.now (P.state cache.old) (P.state cache.new) result }
    ensures sound { Sound (P.state cache.new) }
{
    match cache.reopen() {
        Err(fault) => Err(OpenFault::Store(fault)),
        Ok(()) => match find_here(alloc, cache, pending) {
            Err(fault) => Err(fault),
            Ok(found) => match sum_records(alloc, cache) {
                Err(fault) => Err(fault_of_sums(fault)),
                Ok(totals) => Ok((found, totals)),
            },
        },
    }
}

// Behind this fault a live cache whose sums were not taken counts as stopped.
fn halt_here(
    fault: &OpenFault,
    alloc: Global,
    cache_stopped: &mut bool,
    history: &History,
    calls: &mut CallTable,
    wires: &mut Wires,
    start: &mut Start,
)
    ensures stopped { cache_stopped.new ≡ stopped_here fault.now cache_stopped.old }
    ensures calls { calls.new ≡
        calls_halted fault.now (length history.now.log.answers) calls.old }
    ensures wires { wires.new ≡ wires_halted fault.now wires.old }
    ensures start { start.new ≡ start_halted fault.now start.old }
{
    if let OpenFault::Sums(_) = fault {
        *cache_stopped = true;
        drop_cache(alloc, history, calls, wires, start);
    }
}

impl<P: Store> Group<P> {
    /// Opens the cache's store anew, settles what is in doubt of the cache, and takes the sums over
    /// its records: an act that is there enters the history, a raise that is there leaves the cache
    /// raised, with operations that count from 1, and what is not there never was. The cache runs
    /// again.
    ///
    /// With a fault what is in doubt stays so. The cache is not live where its disk failed; where
    /// there was no memory for the sums, or a wrong key among the records, it counts as stopped.
    pub fn open_cache(&mut self) -> Result<(), OpenFault>
        ensures opened { OpensCache self.old self.new result }
        ensures step { IsStep None self.old self.new }
    {
        let Group {
            alloc,
            cache,
            cache_stopped,
            pending,
            history,
            calls,
            wires,
            start,
            agent,
            ..
        } = self;
        if make_room(history, pending).is_err() {
            return Err(OpenFault::Store(StoreFault::NoMemory));
        }
        let (found, totals) = match look_here(*alloc, cache, pending) {
            Ok(looked) => looked,
            Err(fault) => {
                halt_here(&fault, *alloc, cache_stopped, history, calls, wires, start);
                return Err(fault);
            }
        };
        *cache_stopped = false;
        agent.totals = totals;
        settle(found, pending, history, calls, start);
        Ok(())
    }
}
