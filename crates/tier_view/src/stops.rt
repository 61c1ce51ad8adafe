//! Stops.
ghost use Rattle.tier_view.specs.Stops.{StoppingCacheKeeps};

/// The cache stops, at any moment, in a doubt too: its work is gone.
pub fn stopping_cache_keeps()
    ensures { StoppingCacheKeeps }
{}
