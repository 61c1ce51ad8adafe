//! Lies about a group that what always holds, or growth, refuses.
ghost use Rattle.tier_view.specs.Lies.{BlockedIsByWork, EntriesAskWhatIsWanted, FlushesAreToldNoValues, MadeUpWorkIsRefused, SecondCommitsAreRefused, StrangersDoNotAct};

/// No act is that of a call that is not there.
pub fn strangers_do_not_act()
    ensures { StrangersDoNotAct }
{}

/// A call that a step enters asked what was wanted, on that line.
pub fn entries_ask_what_is_wanted()
    ensures { EntriesAskWhatIsWanted }
{}

/// Work that is said to have come stands.
pub fn made_up_work_is_refused()
    ensures { MadeUpWorkIsRefused }
{}

/// A step commits once at most in a store.
pub fn second_commits_are_refused()
    ensures { SecondCommitsAreRefused }
{}

/// No flush is told values.
pub fn flushes_are_told_no_values()
    ensures { FlushesAreToldNoValues }
{}

/// A call is blocked by the work of another.
pub fn blocked_is_by_work()
    ensures { BlockedIsByWork }
{}
