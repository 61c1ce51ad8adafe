//! Why two stores are refused.
ghost use Rattle.std.specs.Prelude.{◌≡◌};
ghost use Rattle.pool_survey.specs.declared.fault.SurveyFault.TheVariants.{NoMemory};

use obj_model::{Bytes, Name, Pool};
use std::alloc::{AllocError, AllocFailed};
use store_face::StoreFault;

/// Why two stores cannot be attached as one group. Of several causes the first in this order is
/// told, but that a store's fault, or want of memory, ends the reading where it comes.
#[derive(Debug, Drop)]
pub enum SurveyFault {
    /// A call of this pool's store failed: Disk, where it is not live until it is opened again, or
    /// want of memory.
    Store { pool: Pool, fault: StoreFault },
    /// The first key of this pool, in the order of their bytes, that is none of its kind, or whose
    /// value spells nothing; in the cache, or in the base where the cache has none.
    BadRecord { pool: Pool, key: Bytes },
    /// The cache has an epoch, and the base's is greater.
    Epochs { cache: u64, base: u64 },
    /// The first name whose record does not lie rightly over the base's state: a clean one that
    /// differs; a dirty one that has had fewer requests, or as many and differs.
    Unsound { name: Name },
    /// There was not enough memory.
    NoMemory,
}

impl From<AllocError> for SurveyFault {
    ghost from_gives = { λ _ fault. fault ≡ NoMemory };

    fn from(_: AllocError) -> Self {
        SurveyFault::NoMemory
    }
}

impl<T: Drop> From<AllocFailed<T>> for SurveyFault {
    ghost from_gives = { λ _ fault. fault ≡ NoMemory };

    fn from(_: AllocFailed<T>) -> Self {
        SurveyFault::NoMemory
    }
}

impl From<obj_model::NoMemory> for SurveyFault {
    ghost from_gives = { λ _ fault. fault ≡ NoMemory };

    fn from(_: obj_model::NoMemory) -> Self {
        SurveyFault::NoMemory
    }
}
