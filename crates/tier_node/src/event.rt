//! What may happen to a group.
use tier_types::Ask;

/// What may happen to a group.
#[derive(Debug, Drop)]
pub enum Event {
    /// A client's call begins, on this line.
    Client {
        line: u32,
        ask: Ask,
    },
    /// The message of this number reaches the base. It stays, and may be delivered again.
    Deliver {
        message: u64,
    },
    /// The reply of this number is received.
    Receive {
        reply: u64,
    },
    /// The message of this number is lost.
    Forget {
        message: u64,
    },
    /// The reply of this number is lost.
    ForgetReply {
        reply: u64,
    },
    /// The cache stops.
    StopCache,
    /// The base stops.
    StopBase,
    /// The call of this number goes on. One that began in an earlier epoch is told so, and is over.
    Advance {
        call: u64,
    },
    /// The group is started further, by the step that is needed first. A Fence keeps this line and
    /// this call. The call is told why a step was not made; with a line alone that is logged as a
    /// call of its own.
    Start {
        line: Option<u32>,
        call: Option<u64>,
    },
}
