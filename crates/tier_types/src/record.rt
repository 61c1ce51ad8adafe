//! What the cache keeps of a name.
use obj_model::NameState;

/// A name's record in the cache. One whose object is absent is a whiteout.
#[derive(Debug, Drop)]
pub struct TierRec {
    /// The name's state in the tier.
    pub state: NameState,
    /// Whether requests have acted on it since the base last had its state.
    pub dirty: bool,
    /// The moment of its last request, in seconds.
    pub mtime: u64,
}
