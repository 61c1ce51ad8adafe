//! The commit of which it is not known whether it was made.
use obj_model::{Name, Pool, Req};

/// A commit that the disk failed. The store may have it or not, until it is opened anew and the
/// key is read again.
#[derive(Debug, Drop)]
pub enum Doubt {
    /// What the commit changes of this name is the same to memory: a record comes, is marked
    /// clean, or goes, or the base takes a state that the cache has.
    Plain { pool: Pool, name: Name },
    /// A request acted, which leaves its name with this `seq`.
    Act { pool: Pool, req: Req, seq: u64 },
    /// The pool is at this epoch.
    Epoch { pool: Pool, epoch: u64 },
}
