//! A group as it is found when it is attached.
ghost use Rattle.tier_view.specs.Founding.{EpochsAreAsRead, FoundingKeeps, StoresStandAnew, StoresStandAsRead, UntoldStoresStand};

/// A group is found over two stores, whose pools stand for a plain store.
pub fn founding_keeps()
    ensures { FoundingKeeps }
{}

/// Stores that do not both tell stand for any plain store.
pub fn untold_stores_stand()
    ensures { UntoldStoresStand }
{}

/// Pools that stand for a plain store do so at the epochs that were read of them.
pub fn stores_stand_as_read()
    ensures { StoresStandAsRead }
{}

/// The epoch that was read of a live store is that of each map that a stop leaves.
pub fn epochs_are_as_read()
    ensures { EpochsAreAsRead }
{}

/// What a stop left can be attached anew.
pub fn stores_stand_anew()
    ensures { StoresStandAnew }
{}
