//! Disks in memory, for tests and for proofs that run. `MemDisk` fails and stops where it is told
//! to, and tells what it holds: over it the promises about power cuts, which are proved over every
//! disk that tells, are run and seen. `FogDisk` tells nothing, and reads as other bytes from some
//! call on.
//!
//! What they promise: each call of a `MemDisk` leaves exactly what its turn says
//! (`specs/Memory.antt`): a call that works does all of its work; one that is torn does its stated
//! part; after a stop a call does nothing; and a sync and a restart fail only where they are listed
//! or have no memory, which is counted apart.
#![tactic(auto)]

mod disk;
mod fog;
mod pick;
mod plan;
mod platter;
mod state;

pub use disk::{MemDisk, NoMemory};
pub use fog::FogDisk;
pub use pick::Pick;
