//! What calls are answered.
ghost use Rattle.std.specs.Prelude.{◌≡◌, IfOk};
ghost use Rattle.tier_chron.specs.Shapes.{is_fault};

use obj_model::{Kind, Mode, Name, NoMemory, OutList, Pool, Why};

/// What one turn of the agent did.
#[derive(Clone, Debug, Drop)]
pub enum AgentDid {
    /// It took the clean record of this name, of this `seq`, out of the cache.
    Evicted { name: Name, seq: u64 },
    /// It wrote the state of this name, of this `seq`, back to the base.
    Flushed { name: Name, seq: u64 },
    /// The state of `seq` `flushed` was written back, but the record had `now` by then and is still
    /// dirty.
    Again { name: Name, flushed: u64, now: u64 },
    /// There was nothing to do.
    Nothing,
}

/// What a call is answered.
#[derive(Clone, Debug, Drop)]
pub enum Answer {
    /// The write vector was accepted, and the name has this version since; now, or earlier
    /// (`kept`).
    Done {
        ver: u64,
        kept: bool,
    },
    /// The sub-operation at this place, counted from 0, was refused, at this version; now, or
    /// earlier (`kept`).
    Refused {
        at: u8,
        why: Why,
        ver: u64,
        kept: bool,
    },
    /// What each sub-operation of a read vector tells, and the name's version.
    Values {
        ver: u64,
        outs: OutList,
    },
    /// A later request of the client acted on the name, with this number.
    Stale {
        kept: u64,
    },
    /// A number has come to its end, 2^62: the requests of the name, the operations, the calls, the
    /// epochs.
    Worn {
        limit: u64,
    },
    /// Unfinished work of this kind and number stands on the name.
    Blocked {
        kind: Kind,
        opid: u64,
    },
    /// The cache is full, by so many millionths of its target.
    Full {
        micro: u64,
    },
    /// The cache was started again while the call went on: it began in the epoch `was`.
    Restarted {
        was: u64,
        now: u64,
    },
    /// The state of this `seq` was written back to the base, and the record is clean or gone.
    Flushed {
        seq: u64,
    },
    /// The record is clean already.
    Clean,
    /// The cache has no record of the name.
    Absent,
    /// The state of `seq` `flushed` was written back, but the record had `now` by then and is still
    /// dirty.
    Again {
        flushed: u64,
        now: u64,
    },
    /// The clean record of this `seq` was taken out of the cache.
    Evicted {
        seq: u64,
    },
    /// The record is dirty, with this `seq`, and stays.
    Dirty {
        seq: u64,
    },
    /// A flush of this number began and waits for its finish.
    Begun {
        opid: u64,
    },
    /// No begun flush of the name waits.
    NoBegun,
    /// The cache has no record left.
    Drained,
    /// So many records are left; the first name that was busy, with the work that stood on it.
    Left {
        count: u64,
        name: Name,
        kind: Kind,
        opid: u64,
    },
    /// The cache is in this mode, and only a proxying one is drained.
    NotProxy {
        mode: Mode,
    },
    /// What a turn of the agent did.
    Agent(AgentDid),
    /// A pool has no room: so much is used, so much more was needed, and that is the limit.
    NoSpace {
        pool: Pool,
        used: u64,
        need: u64,
        limit: u64,
    },
    /// The history has so many entries and bytes, and takes no further call.
    HistoryFull {
        entries: u64,
        bytes: u64,
    },
    /// A pool's disk failed.
    DiskFault {
        pool: Pool,
    },
    /// What stands at this offset of a pool's disk is no journal.
    Damaged {
        pool: Pool,
        at: u64,
    },
    /// A pool's value of this name spells no state.
    BadRecord {
        pool: Pool,
        name: Name,
    },
    /// There was not enough memory.
    NoMemory,
}

impl Answer {
    /// An equal answer.
    pub fn copy(&self) -> Result<Answer, NoMemory>
        ensures { IfOk result (λ c. c ≡ self.now) }
    {
        Ok(self.clone()?)
    }

    /// Whether it is a fault: a number at its end, a disk that failed or spells nothing, no room, or
    /// a start of the cache in between. A write request that ends by a fault may still act; all
    /// other answers are for good.
    pub fn is_fault(&self) -> bool
        ensures { result ≡ is_fault self.now }
    {
        match self {
            Answer::Restarted { .. }
            | Answer::Damaged { .. }
            | Answer::NoSpace { .. }
            | Answer::Worn { .. }
            | Answer::DiskFault { .. }
            | Answer::BadRecord { .. } => true,
            _ => false,
        }
    }
}
