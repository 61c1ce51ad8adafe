//! Laws of the gathering of chunks, in plain words: how many chunks may still come to a gather, and
//! that each one that it takes leaves fewer.
//!
//! The calls of this crate do nothing: their contracts are the laws. Whoever asks for one chunk
//! after another until a state is whole cites them here, as the measure of that loop. They speak of
//! any list of chunks, so they hold of whatever a gather holds.
#![tactic(auto)]

mod left;

pub use left::{
    adding_leaves_no_more, few_are_left, first_has_most_left, nothing_left_is_whole,
    taken_chunks_are_few, taken_chunks_leave_fewer,
};
