//! What the tier agent does with a cache: flush and evict nothing, some or much, from what the
//! cache holds, the pool's targets and what it did before.
//!
//! Promises that `choose` is the numbered rules exactly: over any pool values, shares and old
//! modes, each with its slop, so that the modes do not flicker round a threshold. The laws say what
//! follows for a list of records.
#![tactic(auto)]

mod choosing;
mod laws;
mod modes;
mod totals;

pub use choosing::choose;
pub use laws::{
    clean_is_not_flushed, effort_is_in_tenths, evicting_goes_on, flushing_goes_on,
    no_target_no_eviction,
};
pub use modes::{EvictMode, FlushMode, Modes};
pub use totals::{Share, Totals};
