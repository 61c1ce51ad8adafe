//! The modes round each threshold, from each old mode, as a computation with exact fractions gives
//! them.
use agent_state::{EvictMode, FlushMode, Modes, Share, Totals, choose};
use obj_model::{HitType, Mode, PoolValues};
use std::test::*;

const LIMIT: u64 = 1 << 40;

const FAR: u64 = 1 << 62;

// The ratios of a pool that sets none: dirty, dirty high and full.
const DEFAULTS: [u64; 3] = [400_000, 600_000, 800_000];

const FLUSH: [FlushMode; 3] = [FlushMode::Idle, FlushMode::Low, FlushMode::High];

const EVICT: [EvictMode; 3] = [EvictMode::Idle, EvictMode::Some, EvictMode::Full];

// Under the defaults. Records, dirty ones, bytes; target objects, target bytes; old flush mode, old
// evict mode (0 idle, 1 low or some, 2 high or full); flush mode, evict mode, effort, dirty part,
// full part.
const AT_DEFAULTS: [[u64; 12]; 50] = [
    [39, 39, 0, 100, 0, 1, 0, 0, 0, 0, 390_000, 390_000],
    [40, 40, 0, 100, 0, 0, 0, 0, 0, 0, 400_000, 400_000],
    [40, 40, 0, 100, 0, 1, 0, 1, 0, 0, 400_000, 400_000],
    [40, 40, 0, 100, 0, 2, 0, 1, 0, 0, 400_000, 400_000],
    [41, 41, 0, 100, 0, 0, 0, 1, 0, 0, 410_000, 410_000],
    [41, 41, 0, 100, 0, 1, 0, 1, 0, 0, 410_000, 410_000],
    [41, 41, 0, 100, 0, 2, 0, 1, 0, 0, 410_000, 410_000],
    [59, 59, 0, 100, 0, 0, 0, 1, 0, 0, 590_000, 590_000],
    [59, 59, 0, 100, 0, 1, 0, 1, 0, 0, 590_000, 590_000],
    [60, 60, 0, 100, 0, 0, 0, 1, 0, 0, 600_000, 600_000],
    [60, 60, 0, 100, 0, 1, 0, 2, 0, 0, 600_000, 600_000],
    [60, 60, 0, 100, 0, 2, 0, 2, 0, 0, 600_000, 600_000],
    [61, 61, 0, 100, 0, 0, 0, 2, 0, 0, 610_000, 610_000],
    [61, 61, 0, 100, 0, 1, 0, 2, 0, 0, 610_000, 610_000],
    [61, 61, 0, 100, 0, 2, 0, 2, 0, 0, 610_000, 610_000],
    [62, 62, 0, 100, 0, 0, 0, 2, 0, 0, 620_000, 620_000],
    [62, 62, 0, 100, 0, 2, 0, 2, 0, 0, 620_000, 620_000],
    [784, 0, 0, 1_000, 0, 0, 0, 0, 0, 0, 0, 784_000],
    [784, 0, 0, 1_000, 0, 0, 1, 0, 0, 0, 0, 784_000],
    [784, 0, 0, 1_000, 0, 0, 2, 0, 0, 0, 0, 784_000],
    [785, 0, 0, 1_000, 0, 0, 0, 0, 0, 0, 0, 785_000],
    [785, 0, 0, 1_000, 0, 0, 1, 0, 1, 100_000, 0, 785_000],
    [785, 0, 0, 1_000, 0, 0, 2, 0, 1, 100_000, 0, 785_000],
    [816, 0, 0, 1_000, 0, 0, 0, 0, 0, 0, 0, 816_000],
    [816, 0, 0, 1_000, 0, 0, 1, 0, 1, 100_000, 0, 816_000],
    [817, 0, 0, 1_000, 0, 0, 0, 0, 1, 100_000, 0, 817_000],
    [817, 0, 0, 1_000, 0, 0, 1, 0, 1, 100_000, 0, 817_000],
    [900, 0, 0, 1_000, 0, 0, 0, 0, 1, 400_000, 0, 900_000],
    [900, 0, 0, 1_000, 0, 0, 1, 0, 1, 500_000, 0, 900_000],
    [999, 0, 0, 1_000, 0, 0, 0, 0, 1, 900_000, 0, 999_000],
    [999, 0, 0, 1_000, 0, 0, 1, 0, 1, 900_000, 0, 999_000],
    [1_000, 0, 0, 1_000, 0, 0, 0, 0, 1, 1_000_000, 0, 1_000_000],
    [1_000, 0, 0, 1_000, 0, 0, 1, 0, 1, 1_000_000, 0, 1_000_000],
    [1_000, 0, 0, 1_000, 0, 0, 2, 0, 1, 1_000_000, 0, 1_000_000],
    [1_001, 0, 0, 1_000, 0, 0, 0, 0, 2, 1_000_000, 0, 1_001_000],
    [1_001, 0, 0, 1_000, 0, 0, 1, 0, 2, 1_000_000, 0, 1_001_000],
    [9, 0, 0, 10, 0, 0, 1, 0, 1, 500_000, 0, 900_000],
    [9, 0, 0, 10, 0, 0, 0, 0, 1, 400_000, 0, 900_000],
    [3, 2, 10, 0, 12, 0, 0, 1, 0, 0, 500_000, 750_000],
    [3, 2, 10, 0, 9, 0, 0, 2, 1, 1_000_000, 666_666, 1_000_000],
    [4, 4, 3, 0, 100, 0, 0, 0, 0, 0, 0, 0],
    [0, 0, 0, 5, 5, 1, 1, 0, 0, 0, 0, 0],
    [0, 3, 7, 0, 5, 0, 0, 0, 0, 0, 0, 0],
    [10, 10, 1_000, 100, 1_250, 0, 0, 2, 0, 0, 800_000, 800_000],
    [
        90, 10, 1_000, 100, 2_000, 0, 0, 0, 1, 400_000, 100_000, 900_000,
    ],
    [LIMIT, LIMIT, LIMIT, 0, 0, 0, 0, 0, 0, 0, 0, 0],
    [
        LIMIT,
        LIMIT,
        LIMIT,
        0,
        1,
        0,
        0,
        2,
        2,
        1_000_000,
        1_099_511_627_776_000_000,
        1_099_511_627_776_000_000,
    ],
    [
        1,
        LIMIT,
        LIMIT,
        0,
        1,
        0,
        0,
        2,
        2,
        1_000_000,
        u64::MAX,
        1_099_511_627_776_000_000,
    ],
    [
        1,
        16,
        LIMIT,
        0,
        1,
        0,
        0,
        2,
        2,
        1_000_000,
        17_592_186_044_416_000_000,
        1_099_511_627_776_000_000,
    ],
    [
        LIMIT,
        LIMIT,
        LIMIT,
        1,
        FAR,
        2,
        2,
        2,
        2,
        1_000_000,
        1_099_511_627_776_000_000,
        1_099_511_627_776_000_000,
    ],
];

// The same with the three ratios behind the targets.
const AT_OTHERS: [[u64; 15]; 8] = [
    [7, 7, 70, 0, 0, 0, 0, 0, 0, 0, 1, 0, 0, 0, 0],
    [7, 0, 70, 0, 0, 0, 0, 0, 0, 0, 0, 0, 0, 0, 0],
    [
        7, 7, 70, 100, 0, 0, 0, 0, 2, 2, 2, 1, 100_000, 70_000, 70_000,
    ],
    [1, 0, 0, 1_000_000, 0, 0, 0, 0, 0, 1, 0, 1, 100_000, 0, 1],
    [
        5, 5, 0, 5, 0, 1_000_000, 1_000_000, 1_000_000, 0, 0, 0, 0, 0, 1_000_000, 1_000_000,
    ],
    [
        5, 5, 0, 5, 0, 1_000_000, 1_000_000, 1_000_000, 1, 1, 2, 1, 1_000_000, 1_000_000, 1_000_000,
    ],
    [
        6, 6, 0, 5, 0, 1_000_000, 1_000_000, 1_000_000, 1, 1, 2, 2, 1_000_000, 1_200_000, 1_200_000,
    ],
    [
        1, 1, 0, 1_000_000, 0, 900_000, 10_000, 800_000, 1, 1, 2, 0, 0, 1, 1,
    ],
];

fn values(ratios: [u64; 3]) -> PoolValues {
    PoolValues {
        cache_mode: Mode::Writeback,
        hit_set_type: HitType::Bloom,
        hit_set_count: 4,
        hit_set_period: 1200,
        hit_set_fpp: 50_000,
        hit_set_grade_decay_rate: 20,
        hit_set_search_last_n: 1,
        target_max_bytes: 0,
        target_max_objects: 0,
        cache_target_dirty_ratio: ratios[0],
        cache_target_dirty_high_ratio: ratios[1],
        cache_target_full_ratio: ratios[2],
        cache_min_flush_age: 0,
        cache_min_evict_age: 0,
        min_read_recency_for_promote: 1,
        min_write_recency_for_promote: 1,
    }
}

// The modes of this cache, or none where its sums are above their limit.
fn chosen(held: [u64; 3], share: [u64; 2], ratios: [u64; 3], old: &Modes) -> Option<Modes> {
    if held[0] > LIMIT || held[1] > LIMIT || held[2] > LIMIT {
        return None;
    }
    let totals = Totals {
        records: held[0],
        dirty: held[1],
        bytes: held[2],
    };
    let share = Share {
        objects: share[0],
        bytes: share[1],
    };
    Some(choose(&totals, &values(ratios), &share, old))
}

// The old modes of this row.
fn old_modes(flush: u64, evict: u64) -> Modes {
    Modes {
        flush: FLUSH[(flush % 3) as usize],
        evict: EVICT[(evict % 3) as usize],
        ..Modes::idle()
    }
}

// The modes that a row ends with.
fn wanted(row: [u64; 5]) -> Option<Modes> {
    Some(Modes {
        flush: FLUSH[(row[0] % 3) as usize],
        evict: EVICT[(row[1] % 3) as usize],
        effort: row[2],
        dirty_micro: row[3],
        full_micro: row[4],
    })
}

#[test]
fn round_each_threshold(rt: HostRuntime) {
    for r in &AT_DEFAULTS {
        let old = old_modes(r[5], r[6]);
        let modes = chosen([r[0], r[1], r[2]], [r[3], r[4]], DEFAULTS, &old);
        assert_eq!(rt; modes, wanted([r[7], r[8], r[9], r[10], r[11]]));
    }
    for r in &AT_OTHERS {
        let old = old_modes(r[8], r[9]);
        let modes = chosen([r[0], r[1], r[2]], [r[3], r[4]], [r[5], r[6], r[7]], &old);
        assert_eq!(rt; modes, wanted([r[10], r[11], r[12], r[13], r[14]]));
    }
}

// An agent at a target of 100 objects, all of them dirty: it begins above 40.8 and goes on down to
// 39.2.
#[test]
fn begins_late_and_ends_late(rt: HostRuntime) {
    let mut modes = Modes::idle();
    for (count, flush) in [(40, 0), (41, 1), (40, 1), (39, 0), (40, 0)] {
        match chosen([count, count, 0], [100, 0], DEFAULTS, &modes) {
            Some(next) => modes = next,
            None => assert!(rt; false, "within the limit"),
        }
        assert_eq!(rt; modes.flush, FLUSH[flush % 3]);
    }
}
