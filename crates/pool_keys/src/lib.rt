//! What the maps of the two pools spell: their keys, the values under them, and each map as a
//! whole;
//! and what a stop may leave of a store.
//!
//! A pool's epoch stands under the letter E, a name's state in the base under N and the name, a
//! name's record in the cache under R and the name. Promises that a key is of one kind only, that
//! keys rise as their names do, and that a map whose keys and values are all spelled stands for one
//! plain store, and for one only.
#![tactic(auto)]

mod epoch;
mod key;
mod laws;
mod left;

pub use epoch::{epoch_name, find_epoch, read_epoch, write_epoch};
pub use key::{PoolKey, epoch_key, read_key, record_key, state_key};
pub use laws::{
    base_is_one, base_stands, cache_is_one, cache_stands, epoch_is_one, key_is_one, keys_rise,
    record_is_one, state_is_one,
};
pub use left::{
    commits_leave, done_leaves, live_has_one, now_is_since, readings_leave, reopenings_leave,
    tells_on,
};
