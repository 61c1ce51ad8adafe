//! Why a call of a base failed.
ghost use Rattle.std.specs.Prelude.{◌≡◌};
ghost use Rattle.base_pool.specs.declared.fault.BaseFault.TheVariants.{Store};
ghost use Rattle.store_face.specs.declared.fault.StoreFault.TheVariants as store;

use obj_model::{Name, NoMemory};
use store_face::StoreFault;

/// Why a call of a base failed.
#[derive(Debug, Drop)]
pub enum BaseFault {
    /// The store's fault: Disk, where the base is not live until it is opened anew; Worn, where a
    /// number that only rises is at its end; NoMemory. Of `reopen` BadImage too.
    Store(StoreFault),
    /// What the base has for this name spells no state. The name `E` stands for the epoch's own
    /// value. Nothing changed.
    BadRecord { name: Name },
}

impl From<NoMemory> for BaseFault {
    ghost from_gives = { λ _ fault. fault ≡ Store store.NoMemory };

    fn from(_: NoMemory) -> Self {
        BaseFault::Store(StoreFault::NoMemory)
    }
}
