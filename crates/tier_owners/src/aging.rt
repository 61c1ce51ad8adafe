//! What is over stays over.
ghost use Rattle.tier_owners.specs.Aging.{EpochsRiseOnRuns, MovesRise, OldStayRefused, ToldStayRefused};

/// No move lowers the epoch of a pool.
pub fn moves_rise()
    ensures { MovesRise }
{}

/// Nor does a run, in any moment.
pub fn epochs_rise_on_runs()
    ensures { EpochsRiseOnRuns }
{}

/// A message of an epoch below the base's changes nothing, now and in any later moment of any run.
pub fn old_stay_refused()
    ensures { OldStayRefused }
{}

/// Once the base told an epoch, a message of a lower one changes nothing in any later moment.
pub fn told_stay_refused()
    ensures { ToldStayRefused }
{}
