//! What a line of a script says.
use obj_model::{Mode, Name, Req, Vector};

/// A command of a script.
#[derive(Debug, Drop)]
pub enum Line {
    /// `op`: a client's write request.
    Op(Req),
    /// `get`: a client's read of a name. The client is 1 to 256, and no sub-operation writes.
    Get {
        client: u16,
        name: Name,
        vector: Vector,
    },
    /// `flush`: writes a dirty record back to the base; writers of the name wait meanwhile.
    Flush(Name),
    /// `tryflush`: the same, and writers do not wait.
    Tryflush(Name),
    /// `begin flush`: the first half of a flush, which `finish` ends.
    BeginFlush(Name),
    /// `begin tryflush`: the first half of a flush for which writers do not wait.
    BeginTryflush(Name),
    /// `finish`: the second half of the name's begun flush.
    Finish(Name),
    /// `evict`: takes a clean record out of the cache.
    Evict(Name),
    /// `drain`: flushes and evicts everything.
    Drain,
    /// `agent`: one turn of the agent.
    Agent,
    /// `mode`: sets the mode of the cache.
    SetMode(Mode),
    /// `time`: sets the moment, in seconds. Moments do not fall within a script.
    SetTime(u64),
    /// `stop cache`: stops the cache pool.
    StopCache,
    /// `stop base`: stops the base pool.
    StopBase,
    /// `par`: begins a block, whose lines are carried out side by side.
    Par,
    /// `end`: ends a block.
    End,
}

/// A command with the number of its line, counted from 1 over all lines of the script.
#[derive(Debug, Drop)]
pub struct Numbered {
    pub number: u32,
    pub line: Line,
}
