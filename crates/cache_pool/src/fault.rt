//! Why a reading of the cache failed.
ghost use Rattle.std.specs.Prelude.{◌≡◌};
ghost use Rattle.cache_pool.specs.declared.fault.CacheFault.TheVariants.{Store};
ghost use Rattle.store_face.specs.declared.fault.StoreFault.TheVariants as store;

use obj_model::{Name, NoMemory};
use store_face::StoreFault;

/// Why a reading of the cache failed.
#[derive(Debug, Drop)]
pub enum CacheFault {
    /// The store's fault: Disk, where it is not live until it is opened anew, or NoMemory.
    Store(StoreFault),
    /// What the cache has for this name spells no record. The name `E` stands for the epoch's own
    /// value. Nothing changed.
    BadRecord { name: Name },
}

impl From<NoMemory> for CacheFault {
    ghost from_gives = { λ _ fault. fault ≡ Store store.NoMemory };

    fn from(_: NoMemory) -> Self {
        CacheFault::Store(StoreFault::NoMemory)
    }
}
