//! The one spelling of states, records of the cache and transactions as bytes.
//!
//! A writer gives the spelling of its value, and a reader gives the value that the bytes, all of
//! them, spell. The blocks of the spellings are there for other crates too.
//!
//! Its page is `docs/formats/records.md`.
#![tactic(auto)]

pub mod blocks;
mod fault;
mod laws;
pub mod put;
mod reading;
mod replies;
mod tier;
mod txn;
mod writing;

pub use fault::ReadError;
pub use laws::{state_spellings, tier_spellings, txn_spellings};
pub use reading::read_state;
pub use tier::{read_tier, write_tier};
pub use txn::{put_txn, read_txn, txn_room, write_txn};
pub use writing::write_state;
