//! Work that is unfinished on a name, because the base has to answer first.
use copy_chunk::Gather;
use obj_model::{Items, Name, Req, Vector};

/// What a client asked of a name.
#[derive(Debug, Drop)]
pub enum Ask {
    /// A write request.
    Write(Req),
    /// A read, which has no request id: it may be done again.
    Read {
        /// 1 to 256.
        client: u16,
        name: Name,
        vector: Vector,
    },
}

/// A read that waits for the base.
#[derive(Debug, Drop)]
pub struct ReadFlight {
    /// The number of the call that reads.
    pub call: u64,
    /// The operation's number in its epoch, from 1.
    pub opid: u64,
    pub vector: Vector,
}

/// Reads of one name that wait for the base, the oldest first.
pub type ReadList = Items<ReadFlight>;

/// Unfinished work on one name. Each has the number of its operation, counted from 1 in each epoch.
#[derive(Drop)]
pub enum Flight {
    /// The name's state is copied from the base in chunks, and then this call's request is served.
    Promote {
        call: u64,
        opid: u64,
        /// The chunks that came.
        gather: Gather,
        ask: Ask,
    },
    /// A write request is with the base.
    Write {
        /// The call that waits for it; without one it is left, and the next call on the name takes
        /// it over.
        driver: Option<u64>,
        /// The call whose request it is.
        owner: u64,
        opid: u64,
        req: Req,
    },
    /// Reads are with the base.
    Reads {
        list: ReadList,
    },
    /// The record's state is written back to the base.
    Flush {
        /// The call that waits for it; without one it was begun alone, and waits to be finished.
        call: Option<u64>,
        opid: u64,
        /// The record's `seq` when the flush began.
        seq: u64,
        /// Whether client writes wait until it has ended.
        blocking: bool,
        /// Whether the record is removed at its end.
        drain: bool,
    },
}
