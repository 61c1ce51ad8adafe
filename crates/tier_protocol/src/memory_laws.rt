//! Memory and the wire stay sound without a word of what the pools have, so over stores that tell
//! nothing too.
ghost use Rattle.tier_protocol.specs.MemoryLaws.{AnsweringKeepsMemory, EndingKeepsMemory, GatheringKeepsMemory, GoingUpKeepsMemory, LosingKeepsMemory, RaisingKeepsMemory, ReplyingKeepsMemory, StartingKeepsMemory, StartingMemory, StoppingKeepsMemory, TellingKeepsMemory};

/// Memory in which nothing is under way is sound.
pub fn starting_memory()
    ensures { StartingMemory }
{}

/// Whatever the base has, its reply to a message of the wire keeps memory sound.
pub fn answering_keeps_memory()
    ensures { AnsweringKeepsMemory }
{}

/// So does a reply that was given out, and a base whose epoch is another.
pub fn replying_keeps_memory()
    ensures { ReplyingKeepsMemory }
{}

/// Losses, calls that end, reads that end, and calls that take over keep memory sound.
pub fn losing_keeps_memory()
    ensures { LosingKeepsMemory }
{}

/// The work on a name may end.
pub fn ending_keeps_memory()
    ensures { EndingKeepsMemory }
{}

/// A promotion may take chunks.
pub fn gathering_keeps_memory()
    ensures { GatheringKeepsMemory }
{}

/// Work may begin under the next number; one more read too.
pub fn starting_keeps_memory()
    ensures { StartingKeepsMemory }
{}

/// Work that stands may send, at first, again, or under another call; so may a Fence be sent.
pub fn telling_keeps_memory()
    ensures { TellingKeepsMemory }
{}

/// Either pool may stop.
pub fn stopping_keeps_memory()
    ensures { StoppingKeepsMemory }
{}

/// The epoch may be raised, or be found raised, while the cache is not up.
pub fn raising_keeps_memory()
    ensures { RaisingKeepsMemory }
{}

/// The cache may go up once it was raised.
pub fn going_up_keeps_memory()
    ensures { GoingUpKeepsMemory }
{}
