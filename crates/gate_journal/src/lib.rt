//! A journal on a disk: records of bytes one after another, each of which is whole or not there
//! after any stop.
//!
//! A record is a gate (1 byte), the payload's length (4 bytes, the greatest first) and the payload;
//! behind the last record stands one more gate. A gate of value 1 is open; any other is closed and
//! ends the journal.
//!
//! Its page is `docs/formats/journal.md`.
#![tactic(auto)]

mod adding;
mod journal;
mod reading;
mod record;
mod step;

pub use adding::{add, append, start};
pub use journal::Journal;
pub use reading::walk;
pub use record::{Record, record_buffer};
pub use step::put;
