//! What follows from the table. These calls do nothing: their contracts are the laws.
ghost use Rattle.tier_route.specs.Laws.{FullTakesNothing, HitIsCached, ProxyKeepsOut, ReadsGoOn};

use agent_state::EvictMode;
use obj_model::Mode;

/// A request is served in the cache exactly where its name has a record.
pub fn a_hit_is_cached(_mode: Mode, _evict: EvictMode, _hit_set_count: u32)
    ensures { HitIsCached _mode _evict _hit_set_count }
{}

/// In proxy mode nothing is promoted and nothing is refused, so a drain can end.
pub fn proxy_keeps_out(_evict: EvictMode, _hit_set_count: u32)
    ensures { ProxyKeepsOut _evict _hit_set_count }
{}

/// A cache in which all may be evicted takes no new name.
pub fn full_takes_nothing(_mode: Mode, _hit_set_count: u32)
    ensures { FullTakesNothing _mode _hit_set_count }
{}

/// A read is never refused.
pub fn reads_go_on(_mode: Mode, _evict: EvictMode, _hit_set_count: u32)
    ensures { ReadsGoOn _mode _evict _hit_set_count }
{}
