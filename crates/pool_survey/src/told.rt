//! What two stores hold.
use agent_state::Totals;

/// What a cache and a base hold.
#[derive(Clone, Copy, Debug, PartialEq, Eq)]
pub struct Survey {
    /// The cache's epoch, 0 where it has none.
    pub cache_epoch: u64,
    /// The base's epoch, 0 where it has none.
    pub base_epoch: u64,
    /// The sums over the cache's records.
    pub totals: Totals,
}
