//! The cache pool: records of names, and an epoch, over any store.
//!
//! Promises that what is read of a name is its record or why there is none (`specs/Reads.antt`),
//! and that a commit puts the one spelling of a record, takes a record out, or raises the epoch,
//! whole or not at all, with a want of room whose numbers are one (`specs/Puts.antt`). What the
//! records mean beside the base is said where both pools are known.
#![tactic(auto)]

mod fault;
mod putting;
mod reading;

pub use fault::CacheFault;
pub use putting::{drop_record, put_epoch, put_record};
pub use reading::{read_epoch_of, read_record};
