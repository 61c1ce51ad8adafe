//! The free blocks of a disk: a set of numbers below a limit, from which the lowest are taken and
//! to which any are given.
//!
//! Carries the promise that the numbers taken are the lowest free ones, and that giving back never
//! wants memory.
#![tactic(auto)]

mod fault;
mod shelf;
mod space;

pub use fault::{NoMemory, TakeFault};
pub use space::BlockSpace;
