//! What follows for the way of a name without a record. The call does nothing: its contract is the
//! law.
ghost use Rattle.tier_moves.specs.Ways.{FollowedModesTell};

/// Modes that were chosen from what a cache holds say that it is full only where its ratio is above
/// one million of a target.
pub fn followed_modes_tell()
    ensures { FollowedModesTell }
{}
