//! A group comes apart again.
ghost use Rattle.std.specs.Prelude.{◌≡◌};
ghost use Rattle.tier_core.specs.Apart.{IsStoreOf};

use crate::Group;
use store_face::Store;
use tier_chron::History;

impl<P: Store> Group<P> {
    /// The cache's store, the base's store and the history. It takes no memory, and all else that
    /// is kept beside them is gone.
    pub fn into_parts(self) -> (P, P, History)
        ensures cache { P.state result.0 ≡ self.stores.cache }
        ensures base { IsStoreOf (P.state result.1) self.stores.base }
        ensures history { result.2.log ≡ self.log }
    {
        let Group {
            cache,
            base,
            history,
            ..
        } = self;
        (cache, base.into_store(), history)
    }
}
