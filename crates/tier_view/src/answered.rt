//! How calls are answered: by faults, by what holds them up, and by replies of the base.
ghost use Rattle.tier_view.specs.Answered.{BlockedCallsKeep, EntriesMayLog, FaultsHaveRoom, FaultyCallsKeep, LandedActsFit, LandedCallsKeep, LandingWritesKeeps, LookedCallsKeep, NewCallsHaveNoWork, NumbersFindActs, OwnActsStand, ReadersMayCloseNow, RecordsMayCloseNow, UnsentMayCloseNow};

/// What a call in flight is answered from its entry may be logged.
pub fn entries_may_log()
    ensures { EntriesMayLog }
{}

/// A call ends with a fault, in a doubt too.
pub fn faulty_calls_keep()
    ensures { FaultyCallsKeep }
{}

/// A fault that a disk had just now was not told yet.
pub fn faults_have_room()
    ensures { FaultsHaveRoom }
{}

/// A call ends that work of another call holds up.
pub fn blocked_calls_keep()
    ensures { BlockedCallsKeep }
{}

/// No work in the table is of the call that is entered next.
pub fn new_calls_have_no_work()
    ensures { NewCallsHaveNoWork }
{}

/// A call that asked no write request may be answered for good, in a doubt too.
pub fn readers_may_close_now()
    ensures { ReadersMayCloseNow }
{}

/// A call that sent nothing may be answered for good.
pub fn unsent_may_close_now()
    ensures { UnsentMayCloseNow }
{}

/// So may a call whose name has a record while the cache is up.
pub fn records_may_close_now()
    ensures { RecordsMayCloseNow }
{}

/// A proxied write lands, whoever drives it.
pub fn landing_writes_keeps()
    ensures { LandingWritesKeeps }
{}

/// It lands and its owner is answered: by its own act, or by what the base told.
pub fn landed_calls_keep()
    ensures { LandedCallsKeep }
{}

/// A reader is told what the base looked up for it.
pub fn looked_calls_keep()
    ensures { LookedCallsKeep }
{}

/// The own act of a call, found under its number, may be its answer.
pub fn own_acts_stand()
    ensures { OwnActsStand }
{}

/// The number of a call's act finds it in the history.
pub fn numbers_find_acts()
    ensures { NumbersFindActs }
{}

/// Where a write landed, its owner's act fits what the base told.
pub fn landed_acts_fit()
    ensures { LandedActsFit }
{}
