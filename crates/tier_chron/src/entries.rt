//! The entries of a history.
use crate::Answer;
use obj_model::{Name, NameState, Path, Reply, Req};

/// A name's state before the first act that touched it.
#[derive(Clone, Debug, Drop)]
pub struct First {
    pub name: Name,
    pub state: NameState,
}

/// A write request that acted, with its reply, its call and the call's line.
#[derive(Clone, Debug, Drop)]
pub struct Act {
    pub call: u64,
    pub line: u32,
    pub req: Req,
    pub reply: Reply,
}

/// An answer, with its call and the call's line. Its place is the number of acts of the store that
/// it speaks of.
#[derive(Clone, Debug, Drop)]
pub struct Logged {
    pub call: u64,
    pub line: u32,
    /// How many acts there were at the call's first step.
    pub begin: u64,
    pub place: u64,
    /// How many acts there were when it was logged.
    pub end: u64,
    /// On which way the request was served, where it was.
    pub path: Option<Path>,
    pub answer: Answer,
}
