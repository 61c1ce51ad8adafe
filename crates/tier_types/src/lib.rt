//! What the cache and the base have between them, as data: records, unfinished work on names,
//! messages and replies.
//!
//! A type of the protocol between the two pools stands here and nowhere else, so that the crates
//! that carry it out and
//! the one that proves it speak of the same values. Beside the types stands what the base does with
//! one message
//! (`specs/Serving.antt`).
#![tactic(auto)]

mod flight;
mod message;
mod phase;
mod record;

pub use flight::{Ask, Flight, ReadFlight, ReadList};
pub use message::{BaseActed, BaseMsg, BaseReply};
pub use phase::Phase;
pub use record::TierRec;
