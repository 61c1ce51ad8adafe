//! Runs of a group: steps one after another, and what they keep together.
//!
//! A step of a group keeps what always holds of it, and grows it as one step may (`tier_view`).
//! Here stands what follows for a list of such steps (`specs/Runs.antt`): what always holds goes
//! on; no act and no answer is forgotten or changed; the group's history is one from the store at
//! which it began, so each answer is that of one plain object store at its place, and each request
//! id acts once; and whatever a stop leaves, in each step and behind all of them, stands for that
//! store. The calls of this crate do nothing: their contracts are the laws.
#![tactic(auto)]

ghost use Rattle.tier_runs.specs.Runs.{RunsAreOneStore, RunsJoin, RunsKeep};

/// A run keeps what always holds, and grows the group.
pub fn runs_keep()
    ensures { RunsKeep }
{}

/// Over stores that tell, a run is answered as one plain object store answers it, and whatever a
/// stop leaves stands for that store.
pub fn runs_are_one_store()
    ensures { RunsAreOneStore }
{}

/// Two runs, one behind the other, are one.
pub fn runs_join()
    ensures { RunsJoin }
{}
