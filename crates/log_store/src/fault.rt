//! How the opening of a store ends where it is refused, and what a look at a disk finds.
ghost use Rattle.std.specs.Prelude.{◌≡◌};
ghost use Rattle.log_store.specs.declared.fault.AttachFault.TheVariants.{Disk};

use tier_outside::DiskFault;

/// Why a store could not be opened.
#[derive(Clone, Copy, Debug, PartialEq, Eq)]
pub enum AttachFault {
    /// The disk failed in this call.
    Disk,
    /// What stands on the disk at this offset is no log of the pool.
    BadImage { at: u64 },
    /// It is a log of another pair than the one wanted.
    WrongPair { found: u64, want: u64 },
    /// There was not enough memory.
    NoMemory,
}

impl From<DiskFault> for AttachFault {
    ghost from_gives = { λ _ fault. fault ≡ Disk };

    fn from(_: DiskFault) -> Self {
        AttachFault::Disk
    }
}

/// What stands on a disk.
#[derive(Clone, Copy, Debug, PartialEq, Eq)]
pub enum Found {
    /// Nothing, or what was left of a formatting that stopped.
    Empty,
    /// The log of this pair.
    Pair(u64),
}
