//! Whose act each Write will be, through every move, and what holds over every run of moves.
//!
//! `specs/Calls.antt` says what is written down of calls, and that each move keeps it;
//! `specs/Moving.antt` has one relation of all moves, and `specs/Runs.antt` the laws over lists of
//! them: from a pair as it is found when it is attached, in every moment of every run, the history
//! is legal, no request id acts twice, each act is its call's, what readers and writers are told is
//! what one plain store tells, and a drained base alone is that store. The calls of this crate do
//! nothing: their contracts are the laws, and the layers above cite these.
#![tactic(auto)]

mod aging;
mod owning;
mod quieting;
mod reaching;
mod running;

pub use aging::{epochs_rise_on_runs, moves_rise, old_stay_refused, told_stay_refused};
pub use owning::{
    acting_keeps_owners, adopters_may_close, answered_here_may_close, asking_keeps_owners,
    beginning_keeps_owners, blocked_may_close, closing_keeps_owners, counting_keeps_owners,
    delivering_keeps_owners, found_is_owned, landed_may_close, owning_nothing_may_close,
    readers_may_close, sending_keeps_owners, unsent_may_close, writing_keeps_owners,
};
pub use quieting::{
    beginning_is_quiet, cleaning_is_quiet, evicting_is_quiet, filling_is_quiet, gathering_is_quiet,
    going_up_is_quiet, landing_is_quiet, promoting_is_quiet, raising_is_quiet, replying_is_quiet,
};
pub use reaching::{
    drains_run, empty_pairs_run, fills_run, found_raises_run, promotes_run, reads_run, records_run,
    starts_run, writes_run,
};
pub use running::{
    closed_act_no_more, history_grows, legal_act_once, moves_keep, runs_are_faithful, runs_keep,
    taken_is_lost,
};
