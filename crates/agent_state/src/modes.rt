//! The modes of the agent, under the names of Ceph's tier agent.

ghost use Rattle.std.specs.Prelude.{◌≡◌};
ghost use Rattle.agent_state.specs.Modes.{idle_modes};

/// Which dirty records are flushed.
#[derive(Clone, Copy, Debug, PartialEq, Eq)]
pub enum FlushMode {
    /// None.
    Idle,
    /// Those of sufficient age.
    Low,
    /// All.
    High,
}

/// Which clean records are evicted.
#[derive(Clone, Copy, Debug, PartialEq, Eq)]
pub enum EvictMode {
    /// None.
    Idle,
    /// The coldest of sufficient age.
    Some,
    /// All.
    Full,
}

/// What the agent does, and the two ratios, in millionths of the targets, that it follows from.
#[derive(Clone, Copy, Debug, PartialEq, Eq)]
pub struct Modes {
    pub flush: FlushMode,
    pub evict: EvictMode,
    /// How much of the records, in millionths and coldest first, may be evicted.
    pub effort: u64,
    /// The dirty part of the cache.
    pub dirty_micro: u64,
    /// The whole of the cache.
    pub full_micro: u64,
}

impl Modes {
    /// The modes before any were chosen: idle, at an empty cache.
    pub fn idle() -> Modes
        ensures { result ≡ idle_modes }
    {
        Modes {
            flush: FlushMode::Idle,
            evict: EvictMode::Idle,
            effort: 0,
            dirty_micro: 0,
            full_micro: 0,
        }
    }
}
