//! The protocol between the two pools, as plain data, with the proof that each of its moves keeps
//! what holds.
//!
//! A cache with dirty records lies over a base. Messages to the base may be lost, come twice, or
//! come when the cache has stopped and started since. `specs/Tiers.antt` says what there is:
//! records, states, work under way, the wire, and the plain store that all of it stands for.
//! `specs/Moves.antt` has each move with what it needs; `specs/Memory.antt` and `specs/Sound.antt`
//! have what holds in every moment, the one without a word of what the pools have, the other with
//! it. The calls of this crate do nothing: their contracts are the laws, and the layers above cite
//! these.
#![tactic(auto)]

mod answers;
mod doubts;
mod fitting;
mod memory_laws;
mod moves;
mod owning;
mod rising;

pub use answers::{
    acted_is_spent, acts_are_fresh, base_never_falls, chunks_are_present, evicted_stays,
    flights_are_fenced, late_writes_change_nothing, none_is_ahead, old_are_refused, reads_are_true,
    writes_are_true,
};
pub use doubts::{cache_doubt_keeps, doubt_keeps, epoch_doubt_keeps, worlds_go_on};
pub use fitting::{flushes_clean, promotions_go_on, starts_are_up, writes_land};
pub use memory_laws::{
    answering_keeps_memory, ending_keeps_memory, gathering_keeps_memory, going_up_keeps_memory,
    losing_keeps_memory, raising_keeps_memory, replying_keeps_memory, starting_keeps_memory,
    starting_memory, stopping_keeps_memory, telling_keeps_memory,
};
pub use moves::{
    acting_keeps, base_alone, beginning_keeps, cleaning_keeps, counting_keeps, delivering_keeps,
    each_stands, evicting_keeps, filling_keeps, finding_keeps, found_is_sound, gathering_keeps,
    going_up_keeps, history_is_legal, landing_keeps, leaving_keeps, losing_keeps, promoting_keeps,
    raising_keeps, sending_keeps, sound_stands, stopping_keeps,
};
pub use owning::{
    acts_are_owned, histories_are_numbered, landing_fits, losses_are_quiet, numbers_are_places,
    numbers_stay, quiet_keeps,
};
pub use rising::{epochs_only_rise, rises_join};
