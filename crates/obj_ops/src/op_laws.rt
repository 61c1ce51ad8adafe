//! What follows from the table of sub-operations, in plain words. These calls do nothing: their
//! contracts are the laws.
ghost use Rattle.obj_ops.specs.OpLaws.{AppendsJoin, FirstRefusalRefuses, LookersChangeNothing};
ghost use Rattle.obj_ops.specs.OpLaws.{RemovalTakesAll, TablesSurvive, WrittenIsRead};

use obj_model::{Bytes, OpList, SubOp};

/// A guard and a reading change nothing.
#[tactic(auto, using(crate::proofs::OpLaws::lookers))]
pub fn lookers_change_nothing(_op: &SubOp)
    ensures { LookersChangeNothing _op.now }
{}

/// A vector of which one step is refused is refused as a whole, with that place, whatever stands
/// before the step and
/// behind it. Then the object is as it was.
#[tactic(auto, using(crate::proofs::OpLaws::first_refusal))]
pub fn first_refusal_refuses(_front: &OpList, _op: &SubOp, _behind: &OpList)
    ensures { FirstRefusalRefuses _front.now _op.now _behind.now }
{}

/// Attributes and omap survive whatever is done to the body.
#[tactic(auto, using(crate::proofs::OpLaws::tables_survive))]
pub fn tables_survive(_op: &SubOp)
    ensures { TablesSurvive _op.now }
{}

/// An object that is removed and made again has nothing of what it had.
pub fn removal_takes_all(_ver: u64)
    ensures { RemovalTakesAll _ver }
{}

/// What was written is read back, where there is something to write.
#[tactic(auto, using(crate::proofs::OpLaws::written_read))]
pub fn written_is_read(_off: u64, _bytes: &Bytes)
    ensures { WrittenIsRead _off _bytes.now }
{}

/// Two appends leave what one append of both leaves.
#[tactic(auto, using(crate::proofs::OpLaws::appends_join))]
pub fn appends_join(_first: &Bytes, _second: &Bytes)
    ensures { AppendsJoin _first.now _second.now }
{}
