//! What is between the two pools of a group: unfinished work, messages and replies under their
//! numbers, what calls await, how far drains have come, and the flushes that were begun alone.
//!
//! Each is found by its number, its call or its name, in a step or by an ordered map. Memory for a
//! message and a reply is taken before the step that sends it, so that it cannot fail behind a
//! commit.
#![tactic(auto)]

mod awaits;
mod begun;
mod notes;
mod numbered;
mod wires;
mod works;

pub use begun::BegunAt;
pub use wires::Wires;
