//! Hit sets: which names were asked for since a moment.
//!
//! A set is of one of three kinds, as the Ceph manual names them: the hashes of the names, the
//! names themselves, or a Bloom filter. Contracts see it as its kind, its first moment and the
//! names whose insertion changed it. Promises that `contains` is exactly what these names make of
//! the kind, that an insertion tells whether it changed the set, and that a set is full after
//! 4,096 such insertions. A Bloom set has all its bits from the start, and an insertion into it,
//! `contains` and `is_full` take no memory.
#![tactic(auto)]

mod bits;
mod bloom;
mod explicit;
mod kind;
mod past;
mod set;

pub use bits::bloom_place;
pub use kind::HitKind;
pub use set::{FULL, HitSet};
