//! What calls await, and how far drains have come.
ghost use Rattle.tier_works.specs.Waits.{AwaitingEndsStep, AwaitingKeeps, NotingKeeps};

/// A call in flight awaits a message that was sent.
pub fn awaiting_keeps()
    ensures { AwaitingKeeps }
{}

/// It does so behind a step, as where work begins and is sent: both are one step.
pub fn awaiting_ends_step()
    ensures { AwaitingEndsStep }
{}

/// A drain in flight notes how far it has come.
pub fn noting_keeps()
    ensures { NotingKeeps }
{}
