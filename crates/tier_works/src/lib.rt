//! Work of calls comes, goes on and is sent, as steps of a group; and what is set for its agent.
//!
//! Each step is a small function of a group's plain data (`specs`), with a law that it keeps what
//! always holds and grows as a step may (`tier_view`). What begins and is sent at once is one step;
//! what begins nothing is quiet, so that it can stand before and behind other steps. The calls of
//! this crate do nothing: their contracts are the laws.
#![tactic(auto)]

mod additions;
mod flushes;
mod joins;
mod promotions;
mod reads;
mod settings;
mod waits;
mod writes;

pub use additions::new_work_is_new;
pub use flushes::{
    flushes_fly_alone_keeps, flushes_fly_keeps, sending_installs_keeps, taking_flushes_keeps,
    taking_old_flushes_keeps,
};
pub use joins::{
    entry_begins_step, new_calls_are_free, quiet_begins_step, quiet_ends_step, quiet_follows_quiet,
};
pub use promotions::{
    asking_chunks_keeps, feeding_asks_keeps, feeding_keeps, promotions_fly_keeps,
    removing_promotions_keeps,
};
pub use reads::{reads_fly_keeps, reads_join_last, sending_looks_keeps};
pub use settings::{
    dropping_modes_keeps, following_modes_keeps, moving_cursors_keeps, setting_modes_keeps,
    setting_moments_keeps,
};
pub use waits::{awaiting_ends_step, awaiting_keeps, noting_keeps};
pub use writes::{adopting_keeps, sending_writes_quietly, taking_over_keeps, writes_fly_keeps};
