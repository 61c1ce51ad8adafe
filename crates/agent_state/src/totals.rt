//! What a cache holds, and how much of the pool's targets is its share.

/// The sums over a cache's records, each at most 2^40.
#[derive(Clone, Copy, Debug, PartialEq, Eq)]
pub struct Totals {
    /// How many records there are, with those whose object is absent.
    pub records: u64,
    /// How many of them are dirty.
    pub dirty: u64,
    /// The bytes of all bodies.
    pub bytes: u64,
}

/// A group's share of the pool's targets; 0 where there is no target.
#[derive(Clone, Copy, Debug, PartialEq, Eq)]
pub struct Share {
    pub objects: u64,
    pub bytes: u64,
}
