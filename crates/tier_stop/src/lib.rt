//! A group is started: which step is needed first, and that step.
//!
//! A start makes one step, the first that is needed (`specs/Needs.antt`): the cache's store is
//! opened and what is in doubt of it is settled; the same of the base; the epoch is raised; a Fence
//! of the epoch is sent. None is needed exactly where the group is ready. What each makes of the
//! group is what the method of the group promises that makes it, and each is one step of a run.
#![tactic(auto)]

mod choosing;
mod laws;
mod starting;

pub use choosing::{StartStep, next_start};
pub use laws::ready_groups_need_nothing;
pub use starting::{StartFault, Started, start_step};
