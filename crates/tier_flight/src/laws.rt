//! Laws on work: functions without a body, whose contract is the law.
ghost use Rattle.tier_flight.specs.Laws.{EndsLeave, OpidsAreTested, TakingLeaves};

/// Work has a number exactly where the number is one of its operations.
#[tactic(auto, using(crate::proofs::WorkLaws::opids_are_tested))]
pub fn opids_are_tested()
    ensures { OpidsAreTested }
{}

/// What the end of a call leaves of work is a part of it, as losses are.
#[tactic(auto, using(crate::proofs::WorkLaws::ends_leave))]
pub fn ends_leave()
    ensures { EndsLeave }
{}

/// Work that a call takes over is the work that stood.
#[tactic(auto, using(crate::proofs::WorkLaws::taking_leaves))]
pub fn taking_leaves()
    ensures { TakingLeaves }
{}
