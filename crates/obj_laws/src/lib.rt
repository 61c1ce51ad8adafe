//! Laws of the plain object store, in plain words: lists that are read in pages, requests over long
//! runs, and changes that change nothing.
//!
//! The calls of this crate do nothing: their contracts are the laws. Whoever lists an omap by
//! pages, or keeps requests over stops and long runs, cites them here. Each speaks of the
//! definitions of `obj_ops`, so it holds of every layer that answers as the plain store does.
#![tactic(auto)]

mod idle;
mod pages;
mod requests;

pub use idle::{guards_exchange, only_version_rises, present_is_idle};
pub use pages::{
    full_pages_are_few, keys_rise, pages_tell_all, pages_tell_each_once, reading_ends,
    short_page_is_last,
};
pub use requests::{
    act_lowers_no_tid, acts_count, answers_stay, later_acts, one_more_step, past_is_kept,
    replays_join, tids_stay,
};
