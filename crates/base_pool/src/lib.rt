//! The base pool: one server of the cache's messages, over any store.
//!
//! A base has a state for each name and an epoch. Promises what it answers to each message and what
//! it makes of its map (`specs/Serves.antt`): at most one key changes, in one commit, and at each
//! moment a stop leaves the map before or the map after it. The laws (`laws`) say it in plainer
//! words: no message lowers a name's `seq` or the epoch, a request that acted is answered again for
//! as long as it is kept, a message of another epoch is refused and leaves the map, and the chunks
//! of a state gather to it.
#![tactic(auto)]

mod base;
mod fault;
mod kept;
mod kinds;
mod laws;
mod opening;
mod putting;
mod refusing;

pub use base::Base;
pub use fault::BaseFault;
pub use laws::{
    ahead_is_refused, chunks_gather, kept_is_answered, lower_install_leaves, nothing_falls,
    old_is_refused, readings_leave, stops_between, writes_once,
};
pub use tier_types::{BaseActed, BaseMsg, BaseReply};
