//! Why a store's call failed.
ghost use Rattle.std.specs.Prelude.{◌≡◌};
ghost use Rattle.store_face.specs.declared.fault.StoreFault.TheVariants.{Disk, NoMemory};

use std::alloc::{AllocError, AllocFailed};
use tier_outside::DiskFault;

/// Why a store's call failed.
#[derive(Clone, Copy, Debug, PartialEq, Eq)]
pub enum StoreFault {
    /// The disk failed in this call. The store is not live until it is opened again.
    Disk,
    /// What stands on the disk at this offset is no journal.
    BadImage { at: u64 },
    /// So much is used and so much more is needed, above this limit. Nothing changed.
    NoSpace { used: u64, need: u64, limit: u64 },
    /// A number that only rises has reached this limit, 2^62. Nothing changed.
    Worn { limit: u64 },
    /// There was not enough memory. Nothing changed, but that a store which was being opened is not
    /// live.
    NoMemory,
}

impl From<DiskFault> for StoreFault {
    ghost from_gives = { λ _ fault. fault ≡ Disk };

    fn from(_: DiskFault) -> Self {
        StoreFault::Disk
    }
}

impl From<AllocError> for StoreFault {
    ghost from_gives = { λ _ fault. fault ≡ NoMemory };

    fn from(_: AllocError) -> Self {
        StoreFault::NoMemory
    }
}

impl<T: Drop> From<AllocFailed<T>> for StoreFault {
    ghost from_gives = { λ _ fault. fault ≡ NoMemory };

    fn from(_: AllocFailed<T>) -> Self {
        StoreFault::NoMemory
    }
}

impl From<obj_model::NoMemory> for StoreFault {
    ghost from_gives = { λ _ fault. fault ≡ NoMemory };

    fn from(_: obj_model::NoMemory) -> Self {
        StoreFault::NoMemory
    }
}
