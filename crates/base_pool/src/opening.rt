//! The epoch of a store.
ghost use Rattle.std.specs.Prelude.{◌≡◌, true};
ghost use Rattle.store_face.specs.Views.{Sound};
ghost use Rattle.base_pool.specs.Opens.{ReadsEpoch};

use crate::BaseFault;
use pool_keys::{epoch_name, find_epoch};
use std::alloc::Global;
use store_face::Store;

/// The epoch that a store's map is at, 0 where it has none.
pub(crate) fn read_epoch_of<P: Store>(alloc: Global, store: &mut P) -> Result<u64, BaseFault>
    requires live { (P.state store.old).live ≡ true }
    requires sound { Sound (P.state store.old) }
    ensures read { ReadsEpoch (P.state store.old) (P.state store.new) result }
    ensures sound { Sound (P.state store.new) }
{
    match find_epoch(alloc, store) {
        Err(fault) => Err(BaseFault::Store(fault)),
        Ok(Some(epoch)) => Ok(epoch),
        Ok(None) => Err(BaseFault::BadRecord {
            name: epoch_name(alloc)?,
        }),
    }
}
