//! Laws on settings: functions without a body, whose contract is the law.
ghost use Rattle.settings_json.specs.Laws.{UnnamedAreDefaults};

/// Settings leave each value that their object does not name at its default.
#[tactic(auto, using(crate::proofs::Unnamed::unnamed_are_defaults))]
pub fn unnamed_are_defaults()
    ensures { UnnamedAreDefaults }
{}
