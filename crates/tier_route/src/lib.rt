//! The way of a client's request: in the cache, by a promotion, or by proxy in the base.
//!
//! Promises that `route` is the table of the modes exactly, row by row, a cached name first.
#![tactic(auto)]

mod laws;
mod routing;

pub use laws::{a_hit_is_cached, full_takes_nothing, proxy_keeps_out, reads_go_on};
pub use obj_model::Path;
pub use routing::{Routed, route};
