//! The table of routes, each of its rows.
use agent_state::EvictMode;
use obj_model::Mode;
use std::test::*;
use tier_route::{Path, Routed, route};

const MODES: [Mode; 3] = [Mode::Writeback, Mode::Readproxy, Mode::Proxy];

const EVICT: [EvictMode; 3] = [EvictMode::Idle, EvictMode::Some, EvictMode::Full];

// By the pool's mode and the evict mode, for names without a record: promote, proxy read, proxy
// write, full. The first four without hit sets, the others with four; of these a read and then a
// write, each with the recency unmet, then met.
const UNCACHED: [[&[u8]; 3]; 3] = [
    [b"pppprpwp", b"pppprpwp", b"rrffrrff"],
    [b"rrpprrpp", b"rrpprrpp", b"rrffrrff"],
    [b"rrwwrrww", b"rrwwrrww", b"rrwwrrww"],
];

// The letter of a route.
fn letter(routed: Routed) -> u8 {
    match routed {
        Routed::Go(Path::Hit) => b'h',
        Routed::Go(Path::Promote) => b'p',
        Routed::Go(Path::ProxyRead) => b'r',
        Routed::Go(Path::ProxyWrite) => b'w',
        Routed::Full => b'f',
    }
}

#[test]
fn each_row(rt: HostRuntime) {
    for (mode, by_evict) in MODES.iter().zip(&UNCACHED) {
        for (evict, letters) in EVICT.iter().zip(by_evict) {
            for (place, wanted) in letters.iter().enumerate() {
                let count = if place < 4 { 0 } else { 4 };
                let write = place % 4 >= 2;
                let met = place % 2 == 1;
                let uncached = route(*mode, *evict, count, write, false, met);
                let cached = route(*mode, *evict, count, write, true, met);
                assert_eq!(rt; letter(uncached), *wanted);
                assert_eq!(rt; letter(cached), b'h');
            }
        }
    }
}
