//! Promotions in what is kept of calls and of what is between the pools.
//!
//! A promotion begins, asks for its chunks one after another, and gathers those that come. All this
//! is said of the table of calls and of the traffic alone; that each is a step of a group is shown
//! by who has these parts.
#![tactic(auto)]

mod asking;
mod beginning;
mod gathering;

pub use asking::{Wanting, ask_chunk};
pub use beginning::begin_promotion;
pub use gathering::{Brought, Gathered, Promotion, gather};
