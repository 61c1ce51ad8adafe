//! Where a journal stands on its disk.

/// Where a journal stands on its disk, in bytes: its first gate, its closed gate, and the end
/// before which its bytes have to stay. The end may be set anew, up to 2^41.
#[derive(Clone, Copy, Debug, PartialEq, Eq)]
pub struct Journal {
    pub start: u64,
    pub next: u64,
    pub end: u64,
}
