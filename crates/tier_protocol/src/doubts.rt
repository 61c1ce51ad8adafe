//! A commit in doubt leaves two sound pairs over one memory, and both go on.
ghost use Rattle.tier_protocol.specs.Doubts.{CacheDoubtKeeps, DoubtKeeps, EpochDoubtKeeps, WorldsGoOn};

/// A commit of the base in doubt.
#[tactic(auto, using(crate::proofs::Worlds::doubt_keeps))]
pub fn doubt_keeps()
    ensures { DoubtKeeps }
{}

/// A commit of the cache in doubt.
#[tactic(auto, using(crate::proofs::Worlds::cache_doubt_keeps))]
pub fn cache_doubt_keeps()
    ensures { CacheDoubtKeeps }
{}

/// A raise of the cache's epoch in doubt.
pub fn epoch_doubt_keeps()
    ensures { EpochDoubtKeeps }
{}

/// While the doubt stands, what changes in memory changes in both worlds alike.
pub fn worlds_go_on()
    ensures { WorldsGoOn }
{}
