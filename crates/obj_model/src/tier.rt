//! Words of the tier that several crates share: modes, pool values, paths, kinds of unfinished
//! work.

/// How the tier treats names that are not in the cache, after the Ceph manual's cache modes.
#[derive(Clone, Copy, Debug, PartialEq, Eq)]
pub enum Mode {
    /// Reads and writes promote.
    Writeback,
    /// Reads are proxied to the base, writes promote.
    Readproxy,
    /// Reads and writes are proxied to the base; the mode in which a cache is drained.
    Proxy,
}

/// The kind of a hit set.
#[derive(Clone, Copy, Debug, PartialEq, Eq)]
pub enum HitType {
    /// A Bloom filter, which may contain names that were never inserted.
    Bloom,
    /// The hashes of the names.
    ExplicitHash,
    /// The names themselves.
    ExplicitObject,
}

/// The values of a cache pool that an operator sets, under the names of the Ceph manual
/// (`cache_mode` aside). Ratios are in millionths, ages and periods in seconds; a target of 0 is
/// none.
#[derive(Clone, Copy, Debug, PartialEq, Eq)]
pub struct PoolValues {
    pub cache_mode: Mode,
    pub hit_set_type: HitType,
    /// How many archived hit sets are kept; 0 for no hit sets at all.
    pub hit_set_count: u32,
    pub hit_set_period: u64,
    /// The rate of false positives of a Bloom hit set.
    pub hit_set_fpp: u32,
    /// By how many hundredths an older hit set counts less.
    pub hit_set_grade_decay_rate: u32,
    pub hit_set_search_last_n: u32,
    pub target_max_bytes: u64,
    pub target_max_objects: u64,
    pub cache_target_dirty_ratio: u64,
    pub cache_target_dirty_high_ratio: u64,
    pub cache_target_full_ratio: u64,
    pub cache_min_flush_age: u64,
    pub cache_min_evict_age: u64,
    pub min_read_recency_for_promote: u32,
    pub min_write_recency_for_promote: u32,
}

/// The way on which a client's request is served.
#[derive(Clone, Copy, Debug, PartialEq, Eq)]
pub enum Path {
    /// In the cache, where the name has a record.
    Hit,
    /// In the cache, after the object was promoted.
    Promote,
    /// In the base.
    ProxyRead,
    /// In the base.
    ProxyWrite,
}

/// The kind of unfinished work on a name.
#[derive(Clone, Copy, Debug, PartialEq, Eq)]
pub enum Kind {
    Promote,
    Write,
    Read,
    Flush,
}
