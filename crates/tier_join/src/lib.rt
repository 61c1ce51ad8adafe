//! The group of two pools over stores that may stop, and the laws of its steps.
//!
//! Beside the two stores stands what is in memory. At whatever a stop leaves of the stores, their
//! maps and the memory spell a pair that is sound (`tier_protocol`); while a commit is in doubt,
//! the pair with the commit or the one without it. `specs/Group.antt` says this,
//! `specs/Promises.antt` what a step promises, `specs/Steps.antt` what a step that commits owes.
//! The calls of this crate do nothing: their contracts are the laws.
#![tactic(auto)]

mod base;
mod cache;
mod doubt;
mod ends;
mod general;
mod memory;
mod opening;
mod rising;

pub use base::{answering_promises, fencing_promises, putting_promises};
pub use cache::{
    acting_promises, cleaning_promises, draining_promises, evicting_promises,
    promoting_acts_promises, promoting_promises, raising_promises,
};
pub use doubt::Doubt;
pub use ends::{
    acts_are_plain, bares_are_plain, empty_caches_stand, empty_pairs_stand, epochs_are_level,
    epochs_are_memorys, groups_begin, groups_begin_anew, histories_are_legal, left_stands,
    promotions_are_plain, reads_are_plain, records_are_plain, writes_are_plain,
};
pub use general::{
    commits_promise, groups_go_on, guards_are_seen, memory_promises, readings_hold, runs_go_on,
    steps_join, worlds_promise,
};
pub use memory::{
    beginning_promises, gathering_promises, going_up_promises, landing_promises, losing_promises,
    sending_promises, stopping_promises,
};
pub use opening::{opening_promises, reopenings_are_among};
pub use rising::{
    commits_rise, each_step_rises, epochs_never_fall, left_are_at_least, maps_never_fall,
    old_answers_stay, rests_rise, rising_steps_join,
};
