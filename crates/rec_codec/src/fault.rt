//! Why nothing was read.
ghost use Rattle.std.specs.Prelude.{◌≡◌};
ghost use Rattle.rec_codec.specs.declared.fault.ReadError.TheVariants.{Memory};

use obj_model::NoMemory;
use std::alloc::{AllocError, AllocFailed};

/// Why a reader of a part gives nothing.
#[derive(Clone, Copy, Debug, PartialEq, Eq)]
pub enum ReadError {
    /// There is not enough memory.
    Memory,
    /// The bytes spell nothing.
    Wrong,
}

impl From<AllocError> for ReadError {
    ghost from_gives = { λ _ e. e ≡ Memory };

    fn from(_: AllocError) -> ReadError {
        ReadError::Memory
    }
}

impl<T: Drop> From<AllocFailed<T>> for ReadError {
    ghost from_gives = { λ _ e. e ≡ Memory };

    fn from(_: AllocFailed<T>) -> ReadError {
        ReadError::Memory
    }
}

impl From<NoMemory> for ReadError {
    ghost from_gives = { λ _ e. e ≡ Memory };

    fn from(_: NoMemory) -> ReadError {
        ReadError::Memory
    }
}
