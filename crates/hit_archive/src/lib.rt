//! The current hit set of a pool with the sets before it, and what they say of a name.
//!
//! Promises that a touch seals the current set exactly where its period is over or it is full,
//! keeps so many archives as the pool counts, and then inserts the name; that a touch without
//! memory changes nothing; and that recency and temperature are exactly their definitions over the
//! sets. An archive is never copied. `recency_met` and `temperature` take no memory and look into
//! each set once.
#![tactic(auto)]

mod archive;
mod sets;

pub use archive::{HitArchive, Touch};
