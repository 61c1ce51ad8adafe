//! Where a cache stands between a stop and its next service.

/// How far a cache has come since it was attached or stopped.
#[derive(Clone, Copy, Debug, PartialEq, Eq)]
pub enum Phase {
    /// It was attached, or stopped: its epoch is one of before.
    Down,
    /// It has an epoch of its own, which the base does not hold as far as is known.
    Raised,
    /// The base told that it holds this epoch.
    Up,
}
