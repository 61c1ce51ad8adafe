//! Parts of a group that are plain data.
use obj_model::{Kind, Name, Pool};
use tier_chron::{Act, Asked, First};
use tier_flight::Busy;
use tier_types::{BaseMsg, BaseReply};

/// The one commit of which it is not known whether it was made, with what enters the history once
/// it is found there.
#[derive(Debug, Drop)]
pub enum Pending {
    /// What the commit changes of this name is the same to memory.
    Plain {
        pool: Pool,
        name: Name,
    },
    /// This act, with the opening that goes with it; it leaves its name with this `seq`.
    Act {
        pool: Pool,
        first: Option<First>,
        act: Act,
        seq: u64,
    },
    /// The pool is at this epoch.
    Epoch {
        pool: Pool,
        epoch: u64,
    },
}

/// A call: its number, its line, what it asked, the epoch of its first step, and how many acts
/// there were then.
#[derive(Debug, Drop)]
pub struct Entry {
    pub number: u64,
    pub line: Option<u32>,
    pub asked: Asked,
    pub epoch: u64,
    pub begin: u64,
    /// Whether it has taken over a write request that was left.
    pub adopted: bool,
    /// Whether it is over.
    pub ended: bool,
}

/// Work that a call began, and how many answers were logged when it came and when it went; it
/// stands where it has not gone.
#[derive(Debug, Drop)]
pub struct Flown {
    pub call: u64,
    pub kind: Kind,
    pub name: Name,
    pub opid: u64,
    pub came: u64,
    pub went: Option<u64>,
}

/// A flush that was begun alone and waits to be finished: its epoch, and the number of its message.
#[derive(Debug, Drop)]
pub struct Begun {
    pub name: Name,
    pub epoch: u64,
    pub message: u64,
}

/// The call whose request a Write carries, and the call's line.
#[derive(Debug, Drop)]
pub struct Owner {
    pub call: u64,
    pub line: u32,
}

/// A message that may still reach the base. A Write has the owner of its request, whose act it will
/// be also when the call has ended long ago.
#[derive(Debug, Drop)]
pub struct Sent {
    pub number: u64,
    pub message: BaseMsg,
    pub owner: Option<Owner>,
}

/// A reply that may still be received, with the number of the message that it answers.
#[derive(Debug, Drop)]
pub struct Replied {
    pub number: u64,
    pub answers: u64,
    pub reply: BaseReply,
}

/// The line and the call that a Fence keeps for whoever sent it.
#[derive(Debug, Drop)]
pub struct KeptFence {
    pub line: Option<u32>,
    pub call: Option<u64>,
}

/// The message whose reply a call awaits.
#[derive(Debug, Drop)]
pub struct Awaited {
    pub call: u64,
    pub message: u64,
}

/// The first busy name that a drain met, and the work that stood on it.
#[derive(Debug, Drop)]
pub struct FirstBusy {
    pub name: Name,
    pub busy: Busy,
}

/// How far a drain has come: the last name that it visited, and the first busy one.
#[derive(Debug, Drop)]
pub struct Noted {
    pub call: u64,
    pub last: Name,
    pub first: Option<FirstBusy>,
}
