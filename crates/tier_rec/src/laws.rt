//! What follows from the definitions. These calls do nothing: their contracts are the laws.
ghost use Rattle.std.specs.Option.{option_copied};
ghost use Rattle.tier_rec.specs.Laws.{CleanedAtItsSeq, RefusedAtAnother, TotalsGoOn};

use tier_types::TierRec;

/// From the totals of a list of records follow those of the list in which one record gave place to
/// another; one that is new or gone among them.
#[tactic(auto, using(crate::proofs::Totals::totals_go_on))]
pub fn totals_go_on(_old: Option<&TierRec>, _new: Option<&TierRec>)
    ensures { TotalsGoOn (option_copied _old.entry) (option_copied _new.entry) }
{}

/// A record that is cleaned is clean, and has the `seq` that was flushed.
#[tactic(auto, using(crate::proofs::Cleaning::cleaned_at_its_seq))]
pub fn cleaned_at_its_seq(_record: &TierRec, _seq: u64)
    ensures { CleanedAtItsSeq _record.now _seq }
{}

/// A record that is not cleaned is given back as it was.
#[tactic(auto, using(crate::proofs::Cleaning::refused_at_another))]
pub fn refused_at_another(_record: &TierRec, _seq: u64)
    ensures { RefusedAtAnother _record.now _seq }
{}
