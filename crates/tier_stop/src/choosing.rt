//! Which step of a start is needed.
ghost use Rattle.std.specs.Prelude.{◌≡◌};
ghost use Rattle.tier_stop.specs.Needs.{is_of, is_shut, start_needed, step_by};

use obj_model::Pool;
use store_face::Store;
use tier_core::Group;
use tier_types::Phase;

/// A step of a start.
#[derive(Clone, Copy, Debug, PartialEq, Eq)]
pub enum StartStep {
    /// The cache's store is opened, and what is in doubt of the cache is settled.
    OpenCache,
    /// The base's store is opened, and what is in doubt of the base is settled.
    OpenBase,
    /// The epoch is raised above both.
    Raise,
    /// A Fence of the cache's epoch is sent.
    Fence,
    /// None: the group is ready.
    Nothing,
}

// Whether the pool is the one in doubt.
fn is_of(pool: Pool, doubt: Option<Pool>) -> bool
    ensures { result ≡ is_of pool doubt }
{
    match (pool, doubt) {
        (Pool::Cache, Some(Pool::Cache)) => true,
        (Pool::Base, Some(Pool::Base)) => true,
        _ => false,
    }
}

// Whether a store has to be opened.
fn is_shut(live: bool, stopped: bool, in_doubt: bool) -> bool
    ensures { result ≡ is_shut live stopped in_doubt }
{
    !live || stopped || in_doubt
}

// The first step that is needed, by which store has to be opened and how far the cache has come.
fn step_by(cache_shut: bool, base_shut: bool, phase: Phase, fenced: bool) -> StartStep
    ensures { result ≡ step_by cache_shut base_shut phase fenced }
{
    if cache_shut {
        return StartStep::OpenCache;
    }
    if base_shut {
        return StartStep::OpenBase;
    }
    match phase {
        Phase::Down => StartStep::Raise,
        Phase::Raised => StartStep::Fence,
        Phase::Up => {
            if fenced {
                StartStep::Nothing
            } else {
                StartStep::Fence
            }
        }
    }
}

/// The step that a start has to make, the first that is needed.
pub fn next_start<P: Store>(group: &Group<P>) -> StartStep
    ensures { result ≡ start_needed group.now }
{
    let doubt = group.doubt_pool();
    let cache_in_doubt = is_of(Pool::Cache, doubt);
    let base_in_doubt = is_of(Pool::Base, doubt);
    let cache_shut = is_shut(
        group.is_cache_live(),
        group.is_cache_stopped(),
        cache_in_doubt,
    );
    let base_shut = is_shut(group.is_base_live(), group.is_base_stopped(), base_in_doubt);
    step_by(cache_shut, base_shut, group.phase(), group.is_fenced())
}
