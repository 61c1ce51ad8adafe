//! A map on one disk whose changes are whole or not there after any stop: the transactions stand in
//! a journal, and the map, which they make, in memory.
#![tactic(auto)]

mod fault;
mod laws;
mod moment;
mod opening;
mod store;

pub use fault::{AttachFault, Found};
pub use laws::a_log_goes_on;
pub use opening::peek;
pub use store::LogStore;
