//! The answers that tell why a start was not made.
ghost use Rattle.std.specs.Option.{option_copied};
ghost use Rattle.std.specs.Prelude.{◌≡◌};
ghost use Rattle.tier_node.specs.Starting.{is_brief, is_brief_in, is_hard, is_hard_open, is_hard_raise, is_hard_store, is_unsaid, is_untold, is_untold_to, lacks_memory, open_answer, raise_answer, start_answer, store_answer};

use cache_pool::CacheFault;
use obj_model::Pool;
use pool_survey::SurveyFault;
use store_face::StoreFault;
use tier_chron::{Answer, Asked};
use tier_core::{OpenFault, RaiseFault};
use tier_stop::StartFault;
use tier_view::Entry;

/// The answer that tells of a fault of a pool's store; none tells of want of memory.
pub(crate) fn store_answer(pool: Pool, fault: StoreFault) -> Option<Answer>
    ensures { result ≡ store_answer pool fault }
{
    match fault {
        StoreFault::Disk => Some(Answer::DiskFault { pool }),
        StoreFault::BadImage { at } => Some(Answer::Damaged { pool, at }),
        StoreFault::NoSpace { used, need, limit } => Some(Answer::NoSpace {
            pool,
            used,
            need,
            limit,
        }),
        StoreFault::Worn { limit } => Some(Answer::Worn { limit }),
        StoreFault::NoMemory => None,
    }
}

// The same of a pool that was not opened.
fn open_answer(pool: Pool, fault: OpenFault) -> Option<Answer>
    ensures { result ≡ open_answer pool fault }
{
    match fault {
        OpenFault::Store(fault) => store_answer(pool, fault),
        OpenFault::BadRecord { name } => Some(Answer::BadRecord { pool, name }),
        _ => None,
    }
}

// The same of an epoch that was not raised.
fn raise_answer(fault: RaiseFault) -> Option<Answer>
    ensures { result ≡ raise_answer fault }
{
    match fault {
        RaiseFault::Worn { limit } => Some(Answer::Worn { limit }),
        RaiseFault::Read(CacheFault::Store(fault)) => store_answer(Pool::Cache, fault),
        RaiseFault::Read(CacheFault::BadRecord { name }) => Some(Answer::BadRecord {
            pool: Pool::Cache,
            name,
        }),
        RaiseFault::Commit(fault) => store_answer(Pool::Cache, fault),
    }
}

/// The answer that tells why a start was not made, if it is no want of memory.
pub(crate) fn start_answer(fault: StartFault) -> Option<Answer>
    ensures { result ≡ start_answer fault }
{
    match fault {
        StartFault::Cache(fault) => open_answer(Pool::Cache, fault),
        StartFault::Base(fault) => open_answer(Pool::Base, fault),
        StartFault::Raise(fault) => raise_answer(fault),
    }
}

// Whether the sums over the cache's records were not taken for want of memory.
fn lacks_memory(fault: &SurveyFault) -> bool
    ensures { result ≡ lacks_memory fault.now }
{
    match fault {
        SurveyFault::Store {
            fault: StoreFault::NoMemory,
            ..
        } => true,
        SurveyFault::NoMemory => true,
        _ => false,
    }
}

// Whether no answer tells of it.
fn is_unsaid(fault: &OpenFault) -> bool
    ensures { result ≡ is_unsaid fault.now }
{
    match fault {
        OpenFault::Sums(fault) => !lacks_memory(fault),
        OpenFault::OtherEpoch { .. } => true,
        _ => false,
    }
}

/// Whether no answer tells why a start was not made: a wrong key of the cache, or a base at another
/// epoch.
pub(crate) fn is_untold(fault: &StartFault) -> bool
    ensures { result ≡ is_untold fault.now }
{
    match fault {
        StartFault::Cache(fault) => is_unsaid(fault),
        StartFault::Base(fault) => is_unsaid(fault),
        StartFault::Raise(_) => false,
    }
}

// Whether a call that ends with its first step is not answered so with a fault of a store.
fn is_hard_store(fault: &StoreFault) -> bool
    ensures { result ≡ is_hard_store fault.now }
{
    matches!(
        fault,
        StoreFault::BadImage { .. } | StoreFault::NoSpace { .. }
    )
}

// The same of a pool that was not opened.
fn is_hard_open(fault: &OpenFault) -> bool
    ensures { result ≡ is_hard_open fault.now }
{
    match fault {
        OpenFault::Store(fault) => is_hard_store(fault),
        _ => false,
    }
}

// The same of an epoch that was not raised.
fn is_hard_raise(fault: &RaiseFault) -> bool
    ensures { result ≡ is_hard_raise fault.now }
{
    match fault {
        RaiseFault::Read(CacheFault::Store(fault)) => is_hard_store(fault),
        RaiseFault::Commit(fault) => is_hard_store(fault),
        _ => false,
    }
}

// Whether a call that ends with its first step is not told so why a start was not made.
fn is_hard(fault: &StartFault) -> bool
    ensures { result ≡ is_hard fault.now }
{
    match fault {
        StartFault::Cache(fault) => is_hard_open(fault),
        StartFault::Base(fault) => is_hard_open(fault),
        StartFault::Raise(fault) => is_hard_raise(fault),
    }
}

// Whether a call that asked this ends with its first step.
fn is_brief(asked: &Asked) -> bool
    ensures { result ≡ is_brief asked.now }
{
    match asked {
        Asked::Flush { begin_only, .. } => *begin_only,
        Asked::Evict(_) => true,
        _ => false,
    }
}

/// The same of the call of an entry.
pub(crate) fn is_brief_in(entry: Option<&Entry>) -> bool
    ensures { result ≡ is_brief_in (option_copied entry.entry) }
{
    match entry {
        Some(entry) => is_brief(&entry.asked),
        None => false,
    }
}

/// Whether a call is not told why a start was not made, by whether it ends with its first step.
pub(crate) fn is_untold_to(brief: bool, fault: &StartFault) -> bool
    ensures { result ≡ is_untold_to brief fault.now }
{
    is_untold(fault) || (is_hard(fault) && brief)
}
