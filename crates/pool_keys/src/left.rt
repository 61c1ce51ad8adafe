//! What the calls of a store leave for a stop.
ghost use Rattle.pool_keys.specs.Laws.{CommitsLeave, DoneLeaves, LiveHasOne, NowIsSince, ReadingsLeave, ReopeningsLeave, TellsOn};

/// Since a commit began a stop leaves what it would have left before, or the map before with the
/// changes. Where the commit answers anything but Ok and a fault of the disk, it is the former.
#[tactic(auto, using(crate::proofs::Leaving::commit_leaves))]
pub fn commits_leave()
    ensures { CommitsLeave }
{}

/// Once a commit answered Ok a stop leaves the map before with the changes.
pub fn done_leaves()
    ensures { DoneLeaves }
{}

/// A reading, done or failed, leaves what a stop would have left before; and one that is done tells
/// of each map that a stop may leave.
#[tactic(auto, using(crate::proofs::Leaving::reading_leaves))]
pub fn readings_leave()
    ensures { ReadingsLeave }
{}

/// Since a reopening began a stop leaves a map that it would have left before.
#[tactic(auto, using(crate::proofs::Leaving::reopening_leaves))]
pub fn reopenings_leave()
    ensures { ReopeningsLeave }
{}

/// What a stop may leave now is among what it may leave since.
#[tactic(auto, using(crate::proofs::Leaving::now_since))]
pub fn now_is_since()
    ensures { NowIsSince }
{}

/// A stop leaves one map of a live store: its map before.
#[tactic(auto, using(crate::proofs::Leaving::live_one))]
pub fn live_has_one()
    ensures { LiveHasOne }
{}

/// A store that tells its maps goes on to, but for a reopening that finds no store.
#[tactic(auto, using(crate::proofs::Leaving::tells_on))]
pub fn tells_on()
    ensures { TellsOn }
{}
