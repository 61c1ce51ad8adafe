//! Epochs over stores that may stop.
ghost use Rattle.tier_join.specs.Rising.{CommitsRise, EachStepRises, EpochsNeverFall, LeftAreAtLeast, MapsNeverFall, OldAnswersStay, RestsRise, RisingStepsJoin};

/// What a stop leaves now is at no lower epochs than memory has.
pub fn left_are_at_least()
    ensures { LeftAreAtLeast }
{}

/// A commit under the key of a name, or of an epoch that is no lower, takes no epoch back, whatever
/// comes of it.
pub fn commits_rise()
    ensures { CommitsRise }
{}

/// Nor does a change of memory alone that takes none back there.
pub fn rests_rise()
    ensures { RestsRise }
{}

/// Each step takes none back.
pub fn each_step_rises()
    ensures { EachStepRises }
{}

/// Nor does a step with a change of memory before or behind it.
pub fn rising_steps_join()
    ensures { RisingStepsJoin }
{}

/// In each step of every run neither memory nor what a stop leaves is at a lower epoch than memory
/// had at the beginning.
pub fn epochs_never_fall()
    ensures { EpochsNeverFall }
{}

/// No map that a stop leaves in a run spells a lower epoch than one that a stop left before it.
pub fn maps_never_fall()
    ensures { MapsNeverFall }
{}

/// A message of a lower epoch than the base's is refused in each later moment.
pub fn old_answers_stay()
    ensures { OldAnswersStay }
{}
