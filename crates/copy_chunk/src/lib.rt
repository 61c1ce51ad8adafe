//! The state of a name in chunks, as it goes from one pool to the other, and the gathering of them.
//!
//! A state has one list of chunks, which join to it. `chunk_of` gives the chunk at a place of it,
//! and none exactly where the place is none of this state. A gather takes the wanted chunk where it
//! fits, in their order and no other; when the last one is there it gives the state that they join
//! to, which is within all limits.
#![tactic(auto)]

mod chunk;
mod cut;
mod cutter;
mod draft;
mod gather;
mod groups;
mod laws;

pub use chunk::{Chunk, Cursor, Part};
pub use cut::chunk_of;
pub use cutter::Cutter;
pub use gather::{Added, Gather};
pub use laws::{chains_are_fronts, chunks_join, fronts_go_on, fronts_join, own_chunks_fit};
