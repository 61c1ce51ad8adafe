//! A pool's map in memory, whose changes are prepared first, which takes all the memory that they
//! need, and applied later, which cannot fail.
//!
//! A store on a disk prepares, writes its journal, and applies: so no commit fails for want of
//! memory once it is on the disk.
#![tactic(auto)]

mod pool;
mod slots;

pub use pool::PoolMap;
