//! The record of a name in the cache, what a request or a flush makes of it, and the totals of all
//! records.
//!
//! Promises that a record is marked clean exactly where its `seq` is the one that was flushed, and
//! that the totals of a list of records in which one was exchanged are had from the totals before,
//! in constant time.
#![tactic(auto)]

mod laws;
mod record;
mod sums;

pub use laws::{cleaned_at_its_seq, refused_at_another, totals_go_on};
pub use record::{after_act, cleaned};
pub use sums::{TOTAL_LIMIT, totals_with};
pub use tier_types::TierRec;
