//! The table of the keys: what each takes, and where it goes.
ghost use Rattle.std.specs.Prelude.{◌≡◌};
ghost use Rattle.serde_json.specs.View.{view};
ghost use Rattle.settings_json.specs.Settings.{defaults, number_in, rate_in, mode_named, mode_in, hit_type_named, hit_type_in, with_cache_value, with_value};
ghost use Rattle.settings_json.specs.Steps.{IsRow};

use obj_model::{HitType, Mode, NUMBER_LIMIT, PoolValues};
use serde_json::Value;

/// The values of a pool of which nothing was set.
pub(crate) const DEFAULTS: PoolValues = PoolValues {
    cache_mode: Mode::Writeback,
    hit_set_type: HitType::Bloom,
    hit_set_count: 4,
    hit_set_period: 1200,
    hit_set_fpp: 50_000,
    hit_set_grade_decay_rate: 20,
    hit_set_search_last_n: 1,
    target_max_bytes: 0,
    target_max_objects: 0,
    cache_target_dirty_ratio: 400_000,
    cache_target_dirty_high_ratio: 600_000,
    cache_target_full_ratio: 800_000,
    cache_min_flush_age: 0,
    cache_min_evict_age: 0,
    min_read_recency_for_promote: 1,
    min_write_recency_for_promote: 1,
};

// All of a whole, in millionths.
const WHOLE: u64 = 1_000_000;

// The longest period or age, in seconds.
const MOST_SECONDS: u64 = 4_294_967_295;

/// Why a member gives no value.
#[derive(Clone, Copy, Debug)]
pub(crate) enum Misfit {
    /// The key is none of a pool's.
    Key,
    /// The value does not fit the key.
    Value,
}

// A whole number from `low` to `high`.
fn long(value: &Value, low: u64, high: u64) -> Option<u64>
    ensures { result ≡ number_in low high (view value.now) }
{
    let number = value.as_u64()?;
    if low <= number && number <= high {
        Some(number)
    } else {
        None
    }
}

// A whole number from 0 to `high`.
fn short(value: &Value, high: u32) -> Option<u32>
    ensures { result ≡ number_in 0 high (view value.now) }
{
    let number = long(value, 0, u64::from(high))?;
    Some(number as u32)
}

// A rate of false positives.
fn rate(value: &Value) -> Option<u32>
    ensures { result ≡ rate_in (view value.now) }
{
    let rate = short(value, 50_000)?;
    if rate == 50_000 || rate == 10_000 || rate == 1_000 {
        Some(rate)
    } else {
        None
    }
}

// The mode of this name.
fn mode_of(word: &str) -> Option<Mode>
    ensures { result ≡ mode_named word.now }
{
    match word {
        "writeback" => Some(Mode::Writeback),
        "readproxy" => Some(Mode::Readproxy),
        "proxy" => Some(Mode::Proxy),
        _ => None,
    }
}

// The mode that a text names.
fn mode(value: &Value) -> Option<Mode>
    ensures { result ≡ mode_in (view value.now) }
{
    mode_of(value.as_str()?)
}

// The kind of hit sets of this name.
fn hit_type_of(word: &str) -> Option<HitType>
    ensures { result ≡ hit_type_named word.now }
{
    match word {
        "bloom" => Some(HitType::Bloom),
        "explicit_hash" => Some(HitType::ExplicitHash),
        "explicit_object" => Some(HitType::ExplicitObject),
        _ => None,
    }
}

// The kind of hit sets that a text names.
fn hit_type(value: &Value) -> Option<HitType>
    ensures { result ≡ hit_type_in (view value.now) }
{
    hit_type_of(value.as_str()?)
}

// The values with what was read in a field, or that nothing was read.
macro_rules! put {
    ($old:ident, $field:ident, $read:expr) => {
        $read
            .map(|read| PoolValues {
                $field: read,
                ..$old
            })
            .ok_or(Misfit::Value)
    };
}

// The rows on the cache, its agent and promotion.
fn with_cache_value(key: &str, value: &Value, old: PoolValues) -> Result<PoolValues, Misfit>
    ensures { IsRow key.now result (with_cache_value key.now (view value.now) old) }
{
    match key {
        "cache_mode" => put!(old, cache_mode, mode(value)),
        "target_max_bytes" => put!(old, target_max_bytes, long(value, 0, NUMBER_LIMIT)),
        "target_max_objects" => put!(old, target_max_objects, long(value, 0, NUMBER_LIMIT)),
        "cache_target_dirty_ratio" => put!(old, cache_target_dirty_ratio, long(value, 0, WHOLE)),
        "cache_target_dirty_high_ratio" => put!(
            old,
            cache_target_dirty_high_ratio,
            long(value, 0, WHOLE)
        ),
        "cache_target_full_ratio" => put!(old, cache_target_full_ratio, long(value, 0, WHOLE)),
        "cache_min_flush_age" => put!(old, cache_min_flush_age, long(value, 0, MOST_SECONDS)),
        "cache_min_evict_age" => put!(old, cache_min_evict_age, long(value, 0, MOST_SECONDS)),
        "min_read_recency_for_promote" => put!(old, min_read_recency_for_promote, short(value, 65)),
        "min_write_recency_for_promote" => put!(
            old,
            min_write_recency_for_promote,
            short(value, 65)
        ),
        _ => Err(Misfit::Key),
    }
}

/// The values with one member over `old`: the rows on hit sets, and below them all others.
pub(crate) fn with_value(key: &str, value: &Value, old: PoolValues) -> Result<PoolValues, Misfit>
    ensures { IsRow key.now result (with_value key.now (view value.now) old) }
{
    match key {
        "hit_set_type" => put!(old, hit_set_type, hit_type(value)),
        "hit_set_count" => put!(old, hit_set_count, short(value, 64)),
        "hit_set_period" => put!(old, hit_set_period, long(value, 1, MOST_SECONDS)),
        "hit_set_fpp" => put!(old, hit_set_fpp, rate(value)),
        "hit_set_grade_decay_rate" => put!(old, hit_set_grade_decay_rate, short(value, 100)),
        "hit_set_search_last_n" => put!(old, hit_set_search_last_n, short(value, 64)),
        _ => with_cache_value(key, value, old),
    }
}
