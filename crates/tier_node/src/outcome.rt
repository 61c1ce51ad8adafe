//! What is told of an event.
use base_pool::BaseFault;
use tier_moves::Unbuilt;
use tier_stop::StartFault;

/// What is told of an event.
#[derive(Debug, Drop)]
pub enum Outcome {
    /// This call was answered, and is over.
    Answered { call: u64 },
    /// The history has so many entries, which weigh so much, and takes no further call. Nothing
    /// changed.
    HistoryFull { entries: u64, bytes: u64 },
    /// What a client asks is no client's: a write request that does not write, or whose client or
    /// number is not within its limits, or a reading that writes. Nothing changed.
    Unlawful,
    /// A client's call needs what is not built yet. It is over without an answer.
    Unbuilt(Unbuilt),
    /// One step more is needed, for this call or for none. The call goes on, or the group is to be
    /// started further.
    Going { call: Option<u64> },
    /// The message of this number was sent.
    Sent { message: u64 },
    /// The base replied to a message. The reply may be received under this number.
    Carried { reply: u64 },
    /// The group is ready: calls are served.
    Ready,
    /// The group, or for a delivery one of its stores, is not ready for the event. Nothing changed.
    NotReady,
    /// What the event asked for failed, with this cause.
    Failed(Fault),
    /// There was not the memory. No more was done than to read; a client's call that was entered, or
    /// one for which a step of a start was to be made, is over without an answer.
    NoMemory,
    /// It was done, and there is no more to tell of it.
    Set,
    /// There is no call, message or reply of the number, or the reply is not waited for. Nothing
    /// changed.
    Nothing,
}

/// Why an event failed.
#[derive(Debug, Drop)]
pub enum Fault {
    /// The base did not serve a message, with this fault.
    Base(BaseFault),
    /// A step of a start was not made, with this fault.
    Start(StartFault),
    /// The base told a want of room with numbers by which there is room. That is no reply, and no
    /// base over a store that tells does so.
    Void,
}
