//! The cache is read.
ghost use Rattle.std.specs.Prelude.{◌≡◌, true, None, IfOk};
ghost use Rattle.cache_pool.specs.Reads.{IsLawful};
ghost use Rattle.tier_core.specs.Reads.{ReadsHere};
ghost use Rattle.tier_join.specs.Promises.{as_it_is};
ghost use Rattle.tier_join.specs.Steps.{HasRec};
ghost use Rattle.tier_view.specs.Laws.{Keeps};
ghost use Rattle.tier_view.specs.Views.{joined};

use crate::Group;
use cache_pool::{CacheFault, read_record};
use obj_model::Name;
use store_face::Store;
use tier_types::TierRec;

impl<P: Store> Group<P> {
    /// The record that the cache has of a name, or none. A reading changes nothing of the group but
    /// the cache's store, which is not live any more where its disk failed.
    pub fn read_here(&mut self, name: &Name) -> Result<Option<TierRec>, CacheFault>
        requires live { self.old.stores.cache.live ≡ true }
        requires settled { self.old.stores.pending ≡ None }
        ensures read { ReadsHere name.now self.old self.new result }
        ensures found { IfOk result (λ rec. HasRec (joined self.new) name.now rec) }
        ensures lawful { IfOk result IsLawful }
        ensures step { Keeps as_it_is None self.old self.new }
    {
        read_record(self.alloc, &mut self.cache, name)
    }
}
