//! What the agent sees of the records, and what it decides by.
use agent_state::Modes;
use obj_model::{Name, PoolValues};

/// What the agent sees of a record.
#[derive(Debug, Drop)]
pub struct Row {
    pub name: Name,
    /// It holds what the base does not have.
    pub dirty: bool,
    /// How many requests acted on it.
    pub seq: u64,
    /// The moment, in seconds, at which it was last written or promoted.
    pub mtime: u64,
    /// There is unfinished work on its name.
    pub busy: bool,
    /// How much it was used lately, by the hit sets.
    pub temperature: u64,
}

/// What decides which rows qualify: the modes of the agent, the pool's values and the moment, in
/// seconds.
#[derive(Clone, Copy, Debug, PartialEq, Eq)]
pub struct Rule {
    pub modes: Modes,
    pub values: PoolValues,
    pub moment: u64,
}
