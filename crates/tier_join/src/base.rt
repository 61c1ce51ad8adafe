//! Messages that the base is given.
ghost use Rattle.tier_join.specs.Laws.{AnsweringPromises, FencingPromises, PuttingPromises};

/// A message that changes nothing in the base is answered: a read, a chunk, a request that acted
/// before, an Install that is behind, a Fence of the base's own epoch, any message of another
/// epoch.
pub fn answering_promises()
    ensures { AnsweringPromises }
{}

/// A Write that acts, or an Install of more requests, is committed. In doubt nobody is told.
pub fn putting_promises()
    ensures { PuttingPromises }
{}

/// A Fence of a later epoch is committed.
pub fn fencing_promises()
    ensures { FencingPromises }
{}
