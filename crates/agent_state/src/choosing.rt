//! The modes that follow from what a cache holds.
ghost use Rattle.std.specs.Prelude.{◌≡◌, ◌≤◌, ◌<◌, ◌^◌};
ghost use Rattle.agent_state.specs.Modes.{AreTotals, average, dirty_of, effort_at, effort_some, evict_at, evict_threshold, fill_of, flush_at, flush_of, full_of, micro_of, modes_of, rests_evict, rests_flush, slop_of, with_slop};

use crate::{EvictMode, FlushMode, Modes, Share, Totals};
use obj_model::PoolValues;

const MILLION: u64 = 1_000_000;

// The smallest effort, and the step of all others.
const EFFORT_STEP: u64 = 100_000;

/// The modes of the agent of a cache that holds `totals`, under the pool's values and the group's
/// share of the targets, after the old modes. Sums and products do not wrap; ratios above 2^64 - 1
/// are cut down to it.
pub fn choose(totals: &Totals, values: &PoolValues, share: &Share, old: &Modes) -> Modes
    requires { AreTotals totals.now }
    ensures { result ≡ modes_of totals.now values.now share.now old.now }
{
    let dirty_micro = fill(totals.dirty, totals, share);
    let full_micro = fill(totals.records, totals, share);
    let threshold = threshold_of(values, old.evict);
    let evict = evict_mode(threshold, full_micro);
    Modes {
        flush: flush_mode(values, old.flush, dirty_micro, totals.dirty),
        evict,
        effort: effort_of(evict, threshold, full_micro),
        dirty_micro,
        full_micro,
    }
}

// A part in millionths of a target.
fn micro(part: u128, target: u64) -> u128
    requires { part ≤ 2 ^ 80 }
    ensures { result ≡ micro_of part target }
{
    if target == 0 {
        0
    } else {
        part * u128::from(MILLION) / u128::from(target)
    }
}

// The body bytes of an average record.
fn average_bytes(totals: &Totals) -> u64
    ensures { result ≡ average totals.now }
{
    if totals.records == 0 {
        0
    } else {
        totals.bytes / totals.records
    }
}

// What so many average records are of the two targets.
fn fill(count: u64, totals: &Totals, share: &Share) -> u64
    requires few { count ≤ 2 ^ 40 }
    requires totals { AreTotals totals.now }
    ensures { result ≡ fill_of count totals.now share.now }
{
    let bytes = u128::from(count) * u128::from(average_bytes(totals));
    let part = micro(bytes, share.bytes).max(micro(u128::from(count), share.objects));
    part.min(u128::from(u64::MAX)) as u64
}

// A threshold with its slop, which is added where the agent rests.
fn slopped(rests: bool, slop: u64, target: u64) -> u128
    ensures { result ≡ with_slop rests slop target }
{
    if rests {
        u128::from(target) + u128::from(slop)
    } else {
        u128::from(target.saturating_sub(slop))
    }
}

// The flush mode at a dirty part.
fn flush_mode(values: &PoolValues, old: FlushMode, part: u64, dirty: u64) -> FlushMode
    ensures { result ≡ flush_of values.now old part dirty }
{
    let rests = matches!(old, FlushMode::Idle);
    let slop = values.cache_target_dirty_ratio / 50;
    let low = slopped(rests, slop, values.cache_target_dirty_ratio);
    let high = slopped(rests, slop, values.cache_target_dirty_high_ratio);
    let part = u128::from(part);
    if high < part {
        FlushMode::High
    } else if low < part || (low == 0 && 0 < dirty) {
        FlushMode::Low
    } else {
        FlushMode::Idle
    }
}

// The full part above which some records are evicted.
fn threshold_of(values: &PoolValues, old: EvictMode) -> u128
    ensures { result ≡ evict_threshold values.now old }
{
    let rests = matches!(old, EvictMode::Idle);
    let target = values.cache_target_full_ratio;
    slopped(rests, target / 50, target)
}

// The evict mode at a full part.
fn evict_mode(threshold: u128, part: u64) -> EvictMode
    ensures { result ≡ evict_at threshold part }
{
    if MILLION < part {
        EvictMode::Full
    } else if threshold < u128::from(part) {
        EvictMode::Some
    } else {
        EvictMode::Idle
    }
}

// The effort of a mode that was chosen at this threshold and part.
fn effort_of(mode: EvictMode, threshold: u128, part: u64) -> u64
    requires { mode ≡ evict_at threshold part }
    ensures { result ≡ effort_at mode threshold part }
{
    match mode {
        EvictMode::Idle => 0,
        EvictMode::Some => some_effort(threshold as u64, part),
        EvictMode::Full => MILLION,
    }
}

// The effort in some mode.
fn some_effort(threshold: u64, part: u64) -> u64
    requires above { threshold < part }
    requires not_full { part ≤ 1000000 }
    ensures { result ≡ effort_some threshold part }
{
    let way = (part - threshold) * MILLION / (MILLION - threshold);
    way.max(EFFORT_STEP) / EFFORT_STEP * EFFORT_STEP
}
