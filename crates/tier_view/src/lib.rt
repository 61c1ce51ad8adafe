//! A group of two pools as contracts see it, what always holds of it, and the laws of its steps.
//!
//! A group is plain data in six parts (`specs/Views.antt`): its stores with the commit in doubt,
//! its history, its calls with the work that they began, what is between the pools, how far it is
//! started, and the agent. What memory holds for the pools (`tier_join`), the calls as a history
//! knows them (`tier_chron`) and whose act each Write will be (`tier_protocol`) are read off these
//! parts and not kept beside them. `specs/Whole.antt` says what always holds, `specs/Grows.antt`
//! what a step may do, `specs/Owed.antt` what a step owes, part by part. The calls of this crate
//! do nothing: their contracts are the laws.
#![tactic(auto)]

mod answered;
mod answers;
mod founding;
mod general;
mod joining;
mod lies;
mod locals;
mod parts;
mod serves;
mod slice;
mod starts;
mod stops;

pub use answered::{
    blocked_calls_keep, entries_may_log, faults_have_room, faulty_calls_keep, landed_acts_fit,
    landed_calls_keep, landing_writes_keeps, looked_calls_keep, new_calls_have_no_work,
    numbers_find_acts, own_acts_stand, readers_may_close_now, records_may_close_now,
    unsent_may_close_now,
};
pub use answers::{
    ending_calls_keeps, leaving_is_quiet, one_work_is_dropped, quiet_is_step, quiet_leads_step,
    quiets_join, steps_join_quiet,
};
pub use founding::{
    epochs_are_as_read, founding_keeps, stores_stand_anew, stores_stand_as_read,
    untold_stores_stand,
};
pub use general::{steps_keep, whole_is_group};
pub use joining::opening_leads_step;
pub use lies::{
    blocked_is_by_work, entries_ask_what_is_wanted, flushes_are_told_no_values,
    made_up_work_is_refused, second_commits_are_refused, strangers_do_not_act,
};
pub use locals::{
    acting_here_keeps, cleaning_here_keeps, evicting_here_keeps, free_lets_write,
    last_act_is_placed, leaving_cache_keeps, promoting_acts_here_keeps, promoting_here_keeps,
    records_answer_plainly, records_are_not_bare, records_tell_truth, sound_is_few, sums_follow,
};
pub use parts::{
    Awaited, Begun, Entry, FirstBusy, Flown, KeptFence, Noted, Owner, Pending, Replied, Sent,
};
pub use serves::{
    actless_keeps, acts_are_not_answers_alone, answering_there_keeps, delivering_keeps,
    delivering_leaves_rest, failing_there_keeps, lacking_there_keeps, leaving_base_keeps,
    owners_may_act, straying_there_keeps, taking_there_keeps,
};
pub use slice::{
    beginning_writes_keeps, delivering_acts_keeps, opening_calls_keeps, sending_writes_keeps,
    settling_acts_keeps,
};
pub use starts::{
    answering_fences_keeps, ending_notes_keeps, ending_waits_keeps, epochs_are_there,
    hearing_fenced_keeps, losing_messages_keeps, losing_replies_keeps, opening_base_leaves_sums,
    opening_stores_keeps, raises_have_their_limit, raising_there_keeps, readings_behind_openings,
    ready_groups_serve, sending_fences_keeps, stopping_base_keeps, unopened_caches_ask_no_sums,
};
pub use stops::stopping_cache_keeps;
