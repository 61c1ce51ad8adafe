//! Messages from the cache to the base, and what the base replies.
use copy_chunk::{Chunk, Cursor};
use obj_model::{Name, NameState, Reply, Req, Vector};
use obj_ops::Looked;

/// A message to the base. Each has the fencing epoch of the cache that sent it; each but Fence has
/// the number of the
/// operation that it belongs to.
#[derive(Debug, Drop)]
pub enum BaseMsg {
    /// From now on messages of lower epochs are to be refused.
    Fence {
        epoch: u64,
    },
    /// Asks for the chunk of a name's state that stands at this cursor.
    GetChunk {
        epoch: u64,
        opid: u64,
        name: Name,
        at: Cursor,
    },
    /// A read, to be answered from the base.
    Look {
        epoch: u64,
        opid: u64,
        name: Name,
        vector: Vector,
    },
    /// A write request, to act on the base.
    Write {
        epoch: u64,
        opid: u64,
        req: Req,
    },
    /// The whole state of a name, which replaces any that has had fewer requests.
    Install {
        epoch: u64,
        opid: u64,
        name: Name,
        state: NameState,
    },
}

/// What became of a write request that was sent to the base.
#[derive(Debug, Drop)]
pub enum BaseActed {
    /// It acted just now.
    Fresh(Reply),
    /// It acted before and is answered again.
    Again(Reply),
    /// A later request of its client acted, with this tid.
    Stale { kept: u64 },
    /// The name has had as many requests as it can have.
    Worn { limit: u64 },
}

/// A reply of the base, with the epoch and the operation's number of the message that it answers.
/// It names no name.
#[derive(Debug, Drop)]
pub enum BaseReply {
    /// The base holds this epoch.
    Fenced {
        epoch: u64,
    },
    /// The chunk at the cursor; none where the state has no such place.
    Chunk {
        epoch: u64,
        opid: u64,
        chunk: Option<Chunk>,
    },
    /// What a read was told.
    Looked {
        epoch: u64,
        opid: u64,
        looked: Looked,
    },
    /// What became of a write request.
    Wrote {
        epoch: u64,
        opid: u64,
        acted: BaseActed,
    },
    /// The base has had at least as many requests for the name as the state of this `seq`.
    Installed {
        epoch: u64,
        opid: u64,
        seq: u64,
    },
    /// The message's commit found no space: `used` and `need` together are above `limit`, in bytes.
    /// For a Fence the
    /// operation's number is 0.
    NoSpace {
        epoch: u64,
        opid: u64,
        used: u64,
        need: u64,
        limit: u64,
    },
    /// The message's epoch is over: the base holds `have`, and the message had `got`.
    OldEpoch {
        have: u64,
        got: u64,
    },
    /// The base was not told of the message's epoch: it holds `have`, and the message had `got`.
    NotFenced {
        have: u64,
        got: u64,
    },
}
