//! A text has at most one reading and at most one fault, and never both.
ghost use Rattle.script_laws.specs.Once.{FaultIsOne, ReadingIsOne, ScriptHasNoFault};

/// A text reads as one list of lines at most.
pub fn reading_is_one(_bytes: &[u8])
    ensures { ReadingIsOne _bytes.now }
{}

/// A text that is a script has no fault.
pub fn script_has_no_fault(_bytes: &[u8])
    ensures { ScriptHasNoFault _bytes.now }
{}

/// A text has one fault at most.
#[tactic(auto, using(crate::proofs::Unique::fault_is_one))]
pub fn fault_is_one(_bytes: &[u8])
    ensures { FaultIsOne _bytes.now }
{}
