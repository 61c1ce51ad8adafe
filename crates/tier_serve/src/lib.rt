//! A base that serves a message, and the step of the group.
//!
//! What the crate of the base promises of one call (`base_pool`, `Serves`) is enough for what a
//! message may make of a group (`tier_view`, `Delivers`). The calls of this crate do nothing: their
//! contracts are the laws.
#![tactic(auto)]

mod installs;
mod unread;

ghost use Rattle.tier_serve.specs.Bridges.{BasesAgree, ReadingLeaves, ServingDelivers};

pub use installs::serving_installs;
pub use unread::{serving_fences, serving_readings, serving_strangers, serving_unread};

/// Whatever a live base answers to a message, what becomes of the group is a step of the message.
pub fn serving_delivers()
    ensures { ServingDelivers }
{}

/// The base behind a call is the group's.
pub fn bases_agree()
    ensures { BasesAgree }
{}

/// A live base is read: that is a step, and what was read is the base's.
pub fn reading_leaves()
    ensures { ReadingLeaves }
{}
