//! Steps without a commit.
ghost use Rattle.tier_join.specs.Laws.{BeginningPromises, GatheringPromises, GoingUpPromises, LandingPromises, LosingPromises, SendingPromises, StoppingPromises};

/// Work begins under the next number: a promotion, a write request, one more read, or a flush.
pub fn beginning_promises()
    ensures { BeginningPromises }
{}

/// Work sends its message, at first or again; or a Fence is sent.
pub fn sending_promises()
    ensures { SendingPromises }
{}

/// A promotion takes the chunk that it wants.
pub fn gathering_promises()
    ensures { GatheringPromises }
{}

/// A proxied write whose reply came ends.
pub fn landing_promises()
    ensures { LandingPromises }
{}

/// Messages and replies are lost, and calls end, at any moment.
pub fn losing_promises()
    ensures { LosingPromises }
{}

/// Either pool stops, at any moment.
pub fn stopping_promises()
    ensures { StoppingPromises }
{}

/// The cache receives Fenced of its epoch, also while a commit is in doubt.
pub fn going_up_promises()
    ensures { GoingUpPromises }
{}
