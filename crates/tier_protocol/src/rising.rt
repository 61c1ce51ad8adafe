//! Epochs only rise.
ghost use Rattle.tier_protocol.specs.Rising.{EpochsOnlyRise, RisesJoin};

/// No move lowers the epoch of a pool.
pub fn epochs_only_rise()
    ensures { EpochsOnlyRise }
{}

/// Nor do two of them.
pub fn rises_join()
    ensures { RisesJoin }
{}
