//! Two steps in one, and a call that was entered just now.
ghost use Rattle.tier_works.specs.Joins.{EntryBeginsStep, NewCallsAreFree, QuietBeginsStep, QuietEndsStep, QuietFollowsQuiet};

/// A step and a quiet one behind it are one step that keeps what always holds.
pub fn quiet_ends_step()
    ensures { QuietEndsStep }
{}

/// So are a quiet step that logs no answer and a step behind it.
pub fn quiet_begins_step()
    ensures { QuietBeginsStep }
{}

/// Two quiet steps are one.
pub fn quiet_follows_quiet()
    ensures { QuietFollowsQuiet }
{}

/// A call's entry and a step behind it, which leaves the epoch, are one step.
pub fn entry_begins_step()
    ensures { EntryBeginsStep }
{}

/// A call that was entered just now has no act, and waits for no work.
pub fn new_calls_are_free()
    ensures { NewCallsAreFree }
{}
