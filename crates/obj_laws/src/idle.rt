//! Sub-operations that change nothing, and guards beside each other.
ghost use Rattle.obj_laws.specs.Idle.{GuardsExchange, OnlyVersionRises, PresentIsIdle};

use obj_model::{NameState, Req, SubOp};

/// Writing the bytes that are there, or cutting to the size that is, is accepted and leaves the
/// object.
#[tactic(auto, using(crate::proofs::Idling::present_idle))]
pub fn present_is_idle(_op: &SubOp)
    ensures { PresentIsIdle _op.now }
{}

/// A request of which no step changes anything raises `ver` all the same, and leaves the object.
#[tactic(auto, using(crate::proofs::Idling::version_rises))]
pub fn only_version_rises(_state: &NameState, _req: &Req)
    ensures { OnlyVersionRises _state.now _req.now }
{}

/// Two guards beside each other may change places: a vector that is accepted leaves and tells the
/// same.
#[tactic(auto, using(crate::proofs::Idling::guards_exchange))]
pub fn guards_exchange(_first: &SubOp, _second: &SubOp)
    ensures { GuardsExchange _first.now _second.now }
{}
