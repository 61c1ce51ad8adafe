//! The kinds of hit sets.

/// The kind of a hit set.
#[derive(Clone, Copy, Debug, PartialEq, Eq)]
pub enum HitKind {
    /// The hashes of the names, so that names of one hash stand for each other.
    ExplicitHash,
    /// The names themselves.
    ExplicitObject,
    /// A Bloom filter with this rate of false positives, in millionths: 50,000, 10,000 or 1,000.
    /// Any other rate counts as 50,000.
    Bloom(u32),
}
