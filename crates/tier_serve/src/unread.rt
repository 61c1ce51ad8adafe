//! Messages whose names were not read before.
ghost use Rattle.tier_serve.specs.Unread.{ServingFences, ServingReadings, ServingStrangers, ServingUnread};

/// A GetChunk or a Look: nothing is in doubt.
pub fn serving_readings()
    ensures { ServingReadings }
{}

/// A Fence: its epoch is in doubt where it is greater than the base's.
pub fn serving_fences()
    ensures { ServingFences }
{}

/// A message about a name, of another epoch than the base's: nothing is in doubt.
pub fn serving_strangers()
    ensures { ServingStrangers }
{}

/// Any message but a Write of the base's epoch.
pub fn serving_unread()
    ensures { ServingUnread }
{}
