//! The beginning, what is left, and what callers are told.
ghost use Rattle.tier_join.specs.Ends.{ActsArePlain, BaresArePlain, EmptyCachesStand, EmptyPairsStand, EpochsAreLevel, EpochsAreMemorys, GroupsBegin, GroupsBeginAnew, HistoriesAreLegal, LeftStands, PromotionsArePlain, ReadsArePlain, RecordsArePlain, WritesArePlain};

/// A cache that has nothing yet may lie over any base.
pub fn empty_caches_stand()
    ensures { EmptyCachesStand }
{}

/// Two pools that have nothing stand for the empty store.
pub fn empty_pairs_stand()
    ensures { EmptyPairsStand }
{}

/// Stores whose maps stand for a plain store begin a group at it.
pub fn groups_begin()
    ensures { GroupsBegin }
{}

/// What a stop left can be attached anew, and a group begins there.
pub fn groups_begin_anew()
    ensures { GroupsBeginAnew }
{}

/// Whatever a stop leaves stands for the plain store, with or without the act in doubt.
pub fn left_stands()
    ensures { LeftStands }
{}

/// Each act of the history acts on the store that those before it leave.
pub fn histories_are_legal()
    ensures { HistoriesAreLegal }
{}

/// A record of the cache has the state that its name has in the plain store.
pub fn records_are_plain()
    ensures { RecordsArePlain }
{}

/// The base has the plain store's state of a name that the cache has no record of.
pub fn bares_are_plain()
    ensures { BaresArePlain }
{}

/// A promotion that has all chunks has the plain store's state.
pub fn promotions_are_plain()
    ensures { PromotionsArePlain }
{}

/// A proxied read is told what the plain store tells.
pub fn reads_are_plain()
    ensures { ReadsArePlain }
{}

/// A proxied write is told what the plain store answers it from then on.
pub fn writes_are_plain()
    ensures { WritesArePlain }
{}

/// A Write that acts on the base acts on the plain store in the same way.
pub fn acts_are_plain()
    ensures { ActsArePlain }
{}

/// A cache that is up has the base's epoch.
pub fn epochs_are_level()
    ensures { EpochsAreLevel }
{}

/// Each map that a stop leaves has the epoch of its pool that memory has.
pub fn epochs_are_memorys()
    ensures { EpochsAreMemorys }
{}
