//! Whether a record lies rightly over the base's state.
ghost use Rattle.std.specs.Prelude.{◌≡◌, ◌↔◌, true, IsTrue};
ghost use Rattle.obj_model.specs.States.{unknown};
ghost use Rattle.obj_model.specs.declared.state.NameState.{NameState};
ghost use Rattle.pool_survey.specs.Steps.{IsFound, Judges, SameAs, SpellsRec};

use obj_model::{Bytes, NameState};
use tier_types::TierRec;

/// What was found of a name in the base: its spelling, and how many requests acted on it.
#[derive(Debug, Drop)]
pub(crate) struct Found {
    pub(crate) spelled: Bytes,
    pub(crate) seq: u64,
}

// Whether a state is that of a name which was never written.
fn is_unknown(state: &NameState) -> bool
    ensures { IsTrue result ↔ (state.now ≡ unknown) }
{
    state.ver == 0 && state.seq == 0 && state.obj.is_none() && state.seen.as_slice().is_empty()
}

// Whether a record has the state that was found, whole. A state has one spelling, with which that
// of the record begins; so nothing else needs to be compared.
#[tactic(auto, using(crate::proofs::Judging::same_rules))]
fn is_same(rec: &TierRec, value: &[u8], found: &Option<Found>) -> bool
    requires { SpellsRec value.now rec.now }
    ensures { (s : NameState) → IsFound found.now s → SameAs rec.now.state s result }
{
    match found {
        None => is_unknown(&rec.state),
        Some(found) => value.starts_with(found.spelled.as_slice()),
    }
}

// How many requests acted on the state that was found.
fn seq_of(found: &Option<Found>) -> u64
    ensures { (s : NameState) → IsFound found.now s → result ≡ s.seq }
{
    match found {
        None => 0,
        Some(found) => found.seq,
    }
}

/// Whether a record, which this value spells, lies rightly over the base's state that was found.
#[tactic(auto, using(crate::proofs::Judging::judged_rules))]
pub(crate) fn fits(rec: &TierRec, value: &[u8], found: &Option<Found>) -> bool
    requires { SpellsRec value.now rec.now }
    ensures { (s : NameState) → IsFound found.now s → Judges rec.now.dirty rec.now.state s result }
{
    let same = is_same(rec, value, found);
    if !rec.dirty {
        return same;
    }
    let seq = seq_of(found);
    if seq < rec.state.seq {
        return true;
    }
    if seq > rec.state.seq {
        return false;
    }
    same
}
