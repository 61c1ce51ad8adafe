//! Laws on the index: functions without a body, whose contract is the law.
ghost use Rattle.agent_pick.specs.IndexLaws.{BusyKeeps, DropsKeep, IndexedPicks, PutsKeep};

/// Where neither age nor temperature decides, the index of rows gives the name that a pass over
/// them picks.
pub fn indexed_picks()
    ensures { IndexedPicks }
{}

/// An index in which a row's name was put is that of the rows with this row.
pub fn puts_keep()
    ensures { PutsKeep }
{}

/// An index out of which the name of a busy row was taken is that of the rows with this row.
pub fn busy_keeps()
    ensures { BusyKeeps }
{}

/// An index out of which a name was taken is that of the rows without that name.
pub fn drops_keep()
    ensures { DropsKeep }
{}
