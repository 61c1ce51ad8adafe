//! Quiet steps, and how calls end.
ghost use Rattle.tier_view.specs.Answers.{EndingCallsKeeps, LeavingIsQuiet, OneWorkIsDropped, QuietIsStep, QuietLeadsStep, QuietsJoin, StepsJoinQuiet};

/// A quiet step is a step.
pub fn quiet_is_step()
    ensures { QuietIsStep }
{}

/// A step and a quiet one behind it are one step.
pub fn steps_join_quiet()
    ensures { StepsJoinQuiet }
{}

/// A quiet step that logs nothing and a step behind it are one step.
pub fn quiet_leads_step()
    ensures { QuietLeadsStep }
{}

/// Two quiet steps are one.
pub fn quiets_join()
    ensures { QuietsJoin }
{}

/// A call ends, with an answer or without one, in a doubt too.
pub fn ending_calls_keeps()
    ensures { EndingCallsKeeps }
{}

/// The work that goes with a call is the one that it is found to wait for.
pub fn one_work_is_dropped()
    ensures { OneWorkIsDropped }
{}

/// A step that leaves stores, history and calls is quiet.
pub fn leaving_is_quiet()
    ensures { LeavingIsQuiet }
{}
