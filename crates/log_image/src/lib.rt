//! What a disk holds as a log of transactions: how it is recognized, formatted and read.
//!
//! A log is a journal whose first record tells what kind of disk it is, of which pool and of which
//! pair of pools; each record behind it is a transaction, and the map is what they make of the
//! empty one, in their order.
//!
//! Its page is `docs/formats/log_store.md`.
#![tactic(auto)]

mod blank;
mod front;
mod head;
mod held;
mod laws;

pub use blank::{finish_format, format_log};
pub use front::{Front, look_at_head};
pub use held::read_log;
pub use laws::{a_log_is_headed, a_log_is_not_refused, one_log};
