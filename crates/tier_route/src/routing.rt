//! The table of the modes.
ghost use Rattle.std.specs.Prelude.{◌≡◌};
ghost use Rattle.tier_route.specs.Routes.{route_of};

use agent_state::EvictMode;
use obj_model::{Mode, Path};

/// Where a request goes.
#[derive(Clone, Copy, Debug, PartialEq, Eq)]
pub enum Routed {
    /// On this path.
    Go(Path),
    /// Nowhere: the cache is full, and the mode does not write round it.
    Full,
}

/// The path of a request in this mode of the pool. `write` is whether it writes, `cached` whether
/// its name has a record, `met` whether the hit sets met the recency that a promotion asks of a
/// read or a write.
pub fn route(
    mode: Mode,
    evict: EvictMode,
    hit_set_count: u32,
    write: bool,
    cached: bool,
    met: bool,
) -> Routed
    ensures { result ≡ route_of mode evict hit_set_count write cached met }
{
    if cached {
        return Routed::Go(Path::Hit);
    }
    let full = matches!(evict, EvictMode::Full);
    match (mode, write) {
        (Mode::Writeback, false) if full => Routed::Go(Path::ProxyRead),
        (Mode::Writeback, true) if full => Routed::Full,
        (Mode::Writeback, _) if hit_set_count == 0 || met => Routed::Go(Path::Promote),
        (Mode::Writeback, false) => Routed::Go(Path::ProxyRead),
        (Mode::Writeback, true) => Routed::Go(Path::ProxyWrite),
        (Mode::Readproxy, true) if full => Routed::Full,
        (Mode::Readproxy, true) => Routed::Go(Path::Promote),
        (Mode::Readproxy, false) => Routed::Go(Path::ProxyRead),
        (Mode::Proxy, false) => Routed::Go(Path::ProxyRead),
        (Mode::Proxy, true) => Routed::Go(Path::ProxyWrite),
    }
}
