//! What the opening of a pool's store finds, and what it makes of memory.
ghost use Rattle.std.specs.List.{AllByRecursion};
ghost use Rattle.std.specs.Prelude.{◌≡◌, length, OnOk};
ghost use Rattle.store_face.specs.declared.fault.StoreFault.TheVariants as store;
ghost use Rattle.tier_calls.specs.Turns.{HasGone};
ghost use Rattle.tier_core.specs.declared.opening.OpenFault.TheVariants.{Store};
ghost use Rattle.tier_core.specs.Looks.{Matches};
ghost use Rattle.tier_core.specs.Opens.{HasRoom, HasRoomFor, MayEnter, MaySettle, log_entered, log_settled, pending_settled, raised_to, start_entered, start_settled, table_entered, table_settled};
ghost use Rattle.tier_view.specs.Starts.{pool_in};

use crate::parts::Start;
use obj_model::{Name, NoMemory, Pool};
use pool_survey::SurveyFault;
use store_face::StoreFault;
use tier_calls::CallTable;
use tier_chron::History;
use tier_types::Phase;
use tier_view::Pending;

/// Why a pool was not opened anew.
#[derive(Debug, Drop)]
pub enum OpenFault {
    /// The pool's store failed: Disk, where it is not live; NoMemory; of the opening itself
    /// BadImage too, and never where the store tells.
    Store(StoreFault),
    /// What the pool has for this name spells nothing. The name `E` stands for the epoch's own
    /// value.
    BadRecord { name: Name },
    /// The sums over the records of a live cache were not taken: there was no memory, or a key is
    /// wrong.
    Sums(SurveyFault),
    /// The base is at this epoch, which is neither the one in memory nor the one in doubt. It never
    /// comes where both stores tell.
    OtherEpoch { found: u64 },
}

impl From<NoMemory> for OpenFault {
    ghost from_gives = { λ _ fault. fault ≡ Store store.NoMemory };

    fn from(_: NoMemory) -> Self {
        OpenFault::Store(StoreFault::NoMemory)
    }
}

/// What was found of the commit in doubt.
#[derive(Clone, Copy, Debug, PartialEq, Eq)]
pub(crate) enum Found {
    /// None of this pool is in doubt.
    Nothing,
    /// It is there; what memory is the same to was read again.
    There,
    /// It is not there.
    Gone,
}

/// The pool that a doubt is about.
pub(crate) fn pool_of(pending: &Pending) -> Pool
    ensures { result ≡ pool_in pending.now }
{
    match pending {
        Pending::Plain { pool, .. } => *pool,
        Pending::Act { pool, .. } => *pool,
        Pending::Epoch { pool, .. } => *pool,
    }
}

/// Whether an act of this `seq` is there, by the `seq` of its name.
pub(crate) fn found_at(name_seq: Option<u64>, seq: u64) -> Found
    ensures { Matches name_seq seq result }
{
    if name_seq == Some(seq) {
        Found::There
    } else {
        Found::Gone
    }
}

/// Takes memory for the act in doubt, if there is one.
pub(crate) fn make_room(history: &mut History, pending: &Option<Pending>) -> Result<(), NoMemory>
    ensures same { history.new.log ≡ history.old.log }
    ensures room { OnOk result (HasRoom pending.now history.new.spare) }
{
    match pending {
        Some(Pending::Act { .. }) => history.reserve(1),
        _ => Ok(()),
    }
}

// The cache is raised to this epoch.
fn raise_to(epoch: u64, calls: &mut CallTable, start: &mut Start)
    requires { AllByRecursion HasGone calls.old.calls.flown }
    ensures calls { calls.new ≡ record calls.old { earlier = length calls.old.calls.flown } }
    ensures start { start.new ≡ raised_to epoch start.old }
{
    calls.new_epoch();
    start.cache_epoch = epoch;
    start.next_opid = 1;
    start.phase = Phase::Raised;
    start.fenced = false;
}

// A commit that was in doubt is there.
fn enter(there: Pending, history: &mut History, calls: &mut CallTable, start: &mut Start)
    requires room { HasRoomFor there history.old.spare }
    requires may { MayEnter there calls.old.calls.flown }
    ensures log { history.new.log ≡ log_entered there history.old.log }
    ensures start { start.new ≡ start_entered there start.old }
    ensures table { calls.new ≡ table_entered there calls.old }
{
    match there {
        Pending::Plain { .. } => {}
        Pending::Act { first, act, .. } => history.push_act(first, act),
        Pending::Epoch {
            pool: Pool::Cache,
            epoch,
        } => raise_to(epoch, calls, start),
        Pending::Epoch {
            pool: Pool::Base,
            epoch,
        } => start.base_epoch = epoch,
    }
}

/// Settles what is in doubt, by what was found of it.
pub(crate) fn settle(
    found: Found,
    pending: &mut Option<Pending>,
    history: &mut History,
    calls: &mut CallTable,
    start: &mut Start,
)
    requires room { HasRoom pending.old history.old.spare }
    requires may { MaySettle found pending.old calls.old.calls.flown }
    ensures pending { pending.new ≡ pending_settled found pending.old }
    ensures log { history.new.log ≡ log_settled found pending.old history.old.log }
    ensures start { start.new ≡ start_settled found pending.old start.old }
    ensures table { calls.new ≡ table_settled found pending.old calls.old }
{
    match found {
        Found::Nothing => {}
        Found::Gone => *pending = None,
        Found::There => {
            if let Some(there) = pending.take() {
                enter(there, history, calls, start);
            }
        }
    }
}
