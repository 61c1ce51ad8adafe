//! The disks of a pair of pools.

/// The disks of a cache pool and its base pool, with the bytes that each pool may use of its disk.
#[derive(Drop)]
pub struct DiskPair<D> {
    pub cache: D,
    pub base: D,
    pub cache_room: u64,
    pub base_room: u64,
}
