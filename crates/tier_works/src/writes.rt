//! Write requests are sent, and those that were left are taken over.
ghost use Rattle.tier_works.specs.Writes.{AdoptingKeeps, SendingWritesQuietly, TakingOverKeeps, WritesFlyKeeps};

/// A write request begins, and its Write is sent.
pub fn writes_fly_keeps()
    ensures { WritesFlyKeeps }
{}

/// The Write of a request that is under way is sent again.
pub fn sending_writes_quietly()
    ensures { SendingWritesQuietly }
{}

/// A client's call takes over a write request that was left on its name, at any moment.
pub fn taking_over_keeps()
    ensures { TakingOverKeeps }
{}

/// It is taken over, and its Write is sent again; it is its owner's still.
pub fn adopting_keeps()
    ensures { AdoptingKeeps }
{}
