//! What holds of all steps.
ghost use Rattle.tier_join.specs.Seen.{GuardsAreSeen};
ghost use Rattle.tier_join.specs.Laws.{CommitsPromise, GroupsGoOn, MemoryPromises, ReadingsHold, RunsGoOn, StepsJoin, WorldsPromise};

/// What a step promises is enough for the invariant to go on, over stores that tell their maps and
/// over stores that tell nothing.
pub fn groups_go_on()
    ensures { GroupsGoOn }
{}

/// In each moment of every run of steps the invariant holds, at a store that stays one; and the
/// history only grows.
pub fn runs_go_on()
    ensures { RunsGoOn }
{}

/// A commit in either pool that has what it owes at each pair of maps promises all that a step
/// promises, whether it was made, was not, or is in doubt.
pub fn commits_promise()
    ensures { CommitsPromise }
{}

/// A change of memory that rests on what was read promises the same.
pub fn memory_promises()
    ensures { MemoryPromises }
{}

/// A change of memory that keeps each pair sound may come while a commit is in doubt.
pub fn worlds_promise()
    ensures { WorldsPromise }
{}

/// Memory may change before a commit and behind it, in one step.
pub fn steps_join()
    ensures { StepsJoin }
{}

/// What was read of a live store is in each map that a stop leaves of it.
pub fn readings_hold()
    ensures { ReadingsHold }
{}

/// A step sees enough of the pair: what it has in memory, and the one record that it read.
pub fn guards_are_seen()
    ensures { GuardsAreSeen }
{}
