//! The sums over a cache's records.
ghost use Rattle.std.specs.Prelude.{◌≡◌, true};
ghost use Rattle.store_face.specs.Views.{Sound};
ghost use Rattle.pool_survey.specs.Surveys.{Sums};

use crate::SurveyFault;
use crate::cache::{CacheRun, Read};
use agent_state::Totals;
use std::alloc::Global;
use store_face::Store;

/// Reads every key and value of a cache once, in their order, and tells the sums over its records,
/// or the first wrong key. The store stays as it was.
#[tactic(auto, using(crate::proofs::Endings::sum_rules))]
pub fn sum_records<C: Store>(alloc: Global, cache: &mut C) -> Result<Totals, SurveyFault>
    requires live { (C.state cache.old).live ≡ true }
    ensures told { Sums (C.state cache.old) (C.state cache.new) result }
    ensures sound { Sound (C.state cache.new) }
{
    // Whether it is live is known; that a live store is sound is a fact that the call brings.
    let _live = cache.is_live();
    let mut run = CacheRun::new(alloc);
    // No store has so many keys.
    for _ in 0..u64::MAX {
        match run.read_next(alloc, cache) {
            Err(fault) => return Err(fault),
            Ok(Read::End) => return Ok(run.totals),
            Ok(_) => {}
        }
    }
    Err(SurveyFault::NoMemory)
}
