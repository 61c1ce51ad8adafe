//! What came of a client's call at its first step.

/// What came of a client's call at its first step.
#[derive(Clone, Copy, Debug, PartialEq, Eq)]
pub enum Begun {
    /// What is asked is no client's: a write request that does not write, or whose client or number
    /// is not within its limits, or a reading that writes. Nothing changed.
    Unlawful,
    /// The history is full, with so many entries, which weigh so much. No call was entered, and
    /// nothing changed.
    HistoryFull { entries: u64, bytes: u64 },
    /// The group is not ready. Nothing changed.
    NotReady,
    /// This call was answered, and is over.
    Answered { call: u64 },
    /// The call needs what is not built yet. It was entered, and is over without an answer.
    Unbuilt(Unbuilt),
    /// There was not the memory. No call was entered, or it is over without an answer.
    NoMemory,
}

/// What a call may need that is not built yet.
#[derive(Clone, Copy, Debug, PartialEq, Eq)]
pub enum Unbuilt {
    /// A write request on the name that was left is to be taken over.
    Adoption,
    /// The call writes, and reads of the name are with the base.
    Reads,
    /// The cache has no record of the name, which is to be promoted.
    Promotion,
    /// The cache has no record of the name, and the call is to be served by the base.
    Proxying,
    /// The cache has no record of the name, and hit sets are to decide whether it is promoted.
    Recency,
}
