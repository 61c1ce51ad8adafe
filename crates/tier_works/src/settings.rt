//! A mode, a moment, the agent's cursor and its modes change.
ghost use Rattle.tier_works.specs.Settings.{DroppingModesKeeps, FollowingModesKeeps, MovingCursorsKeeps, SettingModesKeeps, SettingMomentsKeeps};

/// Another mode is set, at any moment.
pub fn setting_modes_keeps()
    ensures { SettingModesKeeps }
{}

/// A moment is set, which never falls.
pub fn setting_moments_keeps()
    ensures { SettingMomentsKeeps }
{}

/// The name behind which the agent's next turn begins is another.
pub fn moving_cursors_keeps()
    ensures { MovingCursorsKeeps }
{}

/// What the agent does follows anew from the sums over the cache's records.
pub fn following_modes_keeps()
    ensures { FollowingModesKeeps }
{}

/// The agent does nothing.
pub fn dropping_modes_keeps()
    ensures { DroppingModesKeeps }
{}
