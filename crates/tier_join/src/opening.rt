//! The opening of a store, and its doubt.
ghost use Rattle.tier_join.specs.Laws.{OpeningPromises, ReopeningsAreAmong};

/// Whatever a reopening answers, a stop leaves since what it left before.
pub fn reopenings_are_among()
    ensures { ReopeningsAreAmong }
{}

/// A store is opened anew, and its doubt is settled by what its map shows; or the opening failed,
/// or the doubt is the other store's.
pub fn opening_promises()
    ensures { OpeningPromises }
{}
