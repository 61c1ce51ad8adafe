//! Unfinished work on names: how it comes, what it holds up, and what a call leaves of it at its
//! end.
//!
//! Promises that `busy` is the busy table exactly, cell by cell; that `add` puts work on a free
//! name or reads behind the reads that stand there, and changes nothing where memory is missing;
//! and that `leave` takes a call out of the work on a name and leaves all other work as it was: a
//! flush that was begun alone stays. Callers see `Flights` as the finite map from names to their
//! work.
#![tactic(auto)]

mod busy;
mod ending;
mod flights;
mod holding;
mod index;
mod joining;
mod laws;
mod leaving;
mod numbers;

pub use busy::{Busy, Want};
pub use flights::Flights;
pub use laws::{ends_leave, opids_are_tested, taking_leaves};
pub use obj_model::Kind;
pub use tier_types::{Ask, Flight, ReadFlight, ReadList};
