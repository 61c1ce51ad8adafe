//! The table of a group's calls, and of the work that came and went.
//!
//! Calls have the numbers 1, 2, 3 .. without gaps, and within an epoch operations do. So an entry
//! is found by its number in one step, however long the group has run.
#![tactic(auto)]

mod calls;
mod table;
mod work;

pub use table::CallTable;
