//! What holds of all steps.
ghost use Rattle.tier_view.specs.Owed.{StepsKeep, WholeIsGroup};

/// A step that grows as a step may, and has what it owes, keeps all that always holds of a group.
pub fn steps_keep()
    ensures { StepsKeep }
{}

/// The pools of a group, with what is in memory for them, are as they always have to be.
pub fn whole_is_group()
    ensures { WholeIsGroup }
{}
