//! What the need of a step says.
ghost use Rattle.tier_stop.specs.Laws.{ReadyGroupsNeedNothing};

/// No step is needed exactly where the group is ready.
pub fn ready_groups_need_nothing()
    ensures { ReadyGroupsNeedNothing }
{}
