//! Parts of a group that are plain data.
use agent_state::{Modes, Share, Totals};
use obj_model::{Mode, Name, PoolValues};
use tier_types::Phase;
use tier_view::KeptFence;

/// How far a group is started.
#[derive(Debug, Drop)]
pub(crate) struct Start {
    pub(crate) cache_epoch: u64,
    pub(crate) base_epoch: u64,
    /// The number of the next operation, from 1 in each epoch.
    pub(crate) next_opid: u64,
    /// How far the cache has come since its last stop.
    pub(crate) phase: Phase,
    /// Whether the base told the epoch since its own last stop.
    pub(crate) fenced: bool,
    /// What the last Fence keeps for whoever sent it.
    pub(crate) kept: Option<KeptFence>,
}

/// What the agent of a group goes by, and the group's clock.
#[derive(Debug, Drop)]
pub(crate) struct Agent {
    /// The pool's values, which never change.
    pub(crate) values: PoolValues,
    /// The group's share of the pool's targets, which never changes.
    pub(crate) share: Share,
    pub(crate) mode: Mode,
    /// What the agent does, with the two ratios that it follows from.
    pub(crate) modes: Modes,
    /// The present moment, in seconds.
    pub(crate) moment: u64,
    /// The name behind which the next turn begins.
    pub(crate) cursor: Option<Name>,
    /// The sums over the records of the cache.
    pub(crate) totals: Totals,
}
