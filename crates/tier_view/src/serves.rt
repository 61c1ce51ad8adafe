//! Messages that reach the base.
ghost use Rattle.tier_view.specs.Serves.{ActlessKeeps, ActsAreNotAnswersAlone, AnsweringThereKeeps, DeliveringKeeps, DeliveringLeavesRest, FailingThereKeeps, LackingThereKeeps, LeavingBaseKeeps, OwnersMayAct, StrayingThereKeeps, TakingThereKeeps};

/// A message that the base only answers: one reply more, and the message stays on the wire.
pub fn answering_there_keeps()
    ensures { AnsweringThereKeeps }
{}

/// An installation or a Fence is committed and answered.
pub fn taking_there_keeps()
    ensures { TakingThereKeeps }
{}

/// Where both stores tell, the owner of a Write that acts may act.
pub fn owners_may_act()
    ensures { OwnersMayAct }
{}

/// A Write acts, and the tables say that its owner may not: over stores that do not both tell.
pub fn straying_there_keeps()
    ensures { StrayingThereKeeps }
{}

/// The commit that a message needs finds no room, and the base says so.
pub fn lacking_there_keeps()
    ensures { LackingThereKeeps }
{}

/// The base's disk fails over a message, before its commit or in it.
pub fn failing_there_keeps()
    ensures { FailingThereKeeps }
{}

/// The base was read, or could not be, and no doubt comes.
pub fn leaving_base_keeps()
    ensures { LeavingBaseKeeps }
{}

/// A step without an act may be counted as one with any.
pub fn actless_keeps()
    ensures { ActlessKeeps }
{}

/// Whatever comes of a message.
pub fn delivering_keeps()
    ensures { DeliveringKeeps }
{}

/// A message is on the wire still, and one reply came to it, or none; all else is as it was.
pub fn delivering_leaves_rest()
    ensures { DeliveringLeavesRest }
{}

/// A Write that acts is not answered alone.
pub fn acts_are_not_answers_alone()
    ensures { ActsAreNotAnswersAlone }
{}
