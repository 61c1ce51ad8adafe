//! The one face of a pool's store: a finite map on a disk, whose changes are whole or not there
//! after any stop.
//!
//! All layers above know a store by these clauses alone.
#![tactic(auto)]

mod fault;
mod one;
mod store;

pub use fault::StoreFault;
pub use one::{commit_one, one_change};
pub use store::Store;
