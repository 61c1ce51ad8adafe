//! What answers are worth, and what late messages can do.
ghost use Rattle.tier_protocol.specs.Answers.{ActedIsSpent, ActsAreFresh, BaseNeverFalls, ChunksArePresent, EvictedStays, FlightsAreFenced, LateWritesChangeNothing, NoneIsAhead, OldAreRefused, ReadsAreTrue, WritesAreTrue};

/// A proxied read is told what the plain store tells.
pub fn reads_are_true()
    ensures { ReadsAreTrue }
{}

/// A proxied write is told what the plain store answers its request from then on.
pub fn writes_are_true()
    ensures { WritesAreTrue }
{}

/// A promotion is given chunks of the present state: none of an earlier promotion is taken for one
/// of its own.
#[tactic(auto, using(crate::proofs::Truth::chunks_present))]
pub fn chunks_are_present()
    ensures { ChunksArePresent }
{}

/// A request that acts on the base acts on the plain store in the same way, where there is no
/// record.
pub fn acts_are_fresh()
    ensures { ActsAreFresh }
{}

/// A message of an older epoch changes nothing.
#[tactic(auto, using(crate::proofs::Truth::old_refused))]
pub fn old_are_refused()
    ensures { OldAreRefused }
{}

/// The base is never asked in an epoch that it was not told of.
pub fn none_is_ahead()
    ensures { NoneIsAhead }
{}

/// Work that stands asks the base in its own epoch.
#[tactic(auto, using(crate::proofs::Truth::flights_fenced))]
pub fn flights_are_fenced()
    ensures { FlightsAreFenced }
{}

/// A Write that comes after its work has ended changes nothing, whatever became of its name since.
#[tactic(auto, using(crate::proofs::Truth::late_writes))]
pub fn late_writes_change_nothing()
    ensures { LateWritesChangeNothing }
{}

/// A request that acted on the base can act no more.
pub fn acted_is_spent()
    ensures { ActedIsSpent }
{}

/// No message takes the base back: an Install that later writes overtook comes to nothing.
#[tactic(auto, using(crate::proofs::Truth::base_never_falls))]
pub fn base_never_falls()
    ensures { BaseNeverFalls }
{}

/// What is evicted stays in the base with all that it keeps of clients; a whiteout too.
#[tactic(auto, using(crate::proofs::Truth::evicted_stays))]
pub fn evicted_stays()
    ensures { EvictedStays }
{}
