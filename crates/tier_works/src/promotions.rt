//! A promotion begins, gathers its chunks, and is removed when it is whole.
ghost use Rattle.tier_works.specs.Promotions.{AskingChunksKeeps, FeedingAsksKeeps, FeedingKeeps, PromotionsFlyKeeps, RemovingPromotionsKeeps};

/// A promotion begins without a chunk, and asks for the first.
pub fn promotions_fly_keeps()
    ensures { PromotionsFlyKeeps }
{}

/// It asks again for the chunk that it wants.
pub fn asking_chunks_keeps()
    ensures { AskingChunksKeeps }
{}

/// It takes the chunk that it wants from a reply of the base.
pub fn feeding_keeps()
    ensures { FeedingKeeps }
{}

/// It takes a chunk, and asks for the next.
pub fn feeding_asks_keeps()
    ensures { FeedingAsksKeeps }
{}

/// It has all chunks, and is removed, at any moment; its call goes on.
pub fn removing_promotions_keeps()
    ensures { RemovingPromotionsKeeps }
{}
