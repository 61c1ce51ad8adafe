//! Small histories: for each row of what fits, one that fits and one that does not. These calls do
//! nothing: their contracts are the facts.
ghost use Rattle.history_tests.specs.Fitting.{BlockedHasNoAct, FaultMayHaveAnAct, KeptTellsTheReply, OwnActAtItsPlace, RefusedIsNotDone, StaleHasNoAct, ValuesAreOfTheirPlace};

/// A reply of its own fits at the place that is its act's number, also where other acts came before
/// and behind; one place earlier or later it does not.
#[tactic(auto, using(crate::proofs::Rows::own_act))]
pub fn own_act_at_its_place()
    ensures { OwnActAtItsPlace }
{}

/// A refusal fits its own act, and being done does not.
#[tactic(auto, using(crate::proofs::Rows::refused))]
pub fn refused_is_not_done()
    ensures { RefusedIsNotDone }
{}

/// A kept reply fits where the plain store answers again, with the reply that it kept; another
/// version does not fit, and nothing kept fits a request that acts.
#[tactic(auto, using(crate::proofs::Rows::kept))]
pub fn kept_tells_the_reply()
    ensures { KeptTellsTheReply }
{}

/// A late request is told the number that acted; another number does not fit, and no late request
/// has an act.
#[tactic(auto, using(crate::proofs::Rows::stale))]
pub fn stale_has_no_act()
    ensures { StaleHasNoAct }
{}

/// What a reading tells is of the store at its place: behind an act, what was there before does not
/// fit.
#[tactic(auto, using(crate::proofs::Rows::values))]
pub fn values_are_of_their_place()
    ensures { ValuesAreOfTheirPlace }
{}

/// A fault fits without an act of its call, and with one that came later, but not with two.
#[tactic(auto, using(crate::proofs::Rows::fault))]
pub fn fault_may_have_an_act()
    ensures { FaultMayHaveAnAct }
{}

/// A call that was turned away has no act.
#[tactic(auto, using(crate::proofs::Rows::blocked))]
pub fn blocked_has_no_act()
    ensures { BlockedHasNoAct }
{}
