//! What the tables share: the values of a pool that sets none.
use obj_model::{HitType, Mode, PoolValues};

pub const DEFAULTS: PoolValues = PoolValues {
    cache_mode: Mode::Writeback,
    hit_set_type: HitType::Bloom,
    hit_set_count: 4,
    hit_set_period: 1200,
    hit_set_fpp: 50_000,
    hit_set_grade_decay_rate: 20,
    hit_set_search_last_n: 1,
    target_max_bytes: 0,
    target_max_objects: 0,
    cache_target_dirty_ratio: 400_000,
    cache_target_dirty_high_ratio: 600_000,
    cache_target_full_ratio: 800_000,
    cache_min_flush_age: 0,
    cache_min_evict_age: 0,
    min_read_recency_for_promote: 1,
    min_write_recency_for_promote: 1,
};
