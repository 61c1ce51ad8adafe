//! A proxied read begins, and its Look is sent.
ghost use Rattle.tier_works.specs.ProxyReads.{ReadsFlyKeeps, ReadsJoinLast, SendingLooksKeeps};

/// A read joins the reads of its name, and its Look is sent.
pub fn reads_fly_keeps()
    ensures { ReadsFlyKeeps }
{}

/// The Look of a read that is under way is sent again.
pub fn sending_looks_keeps()
    ensures { SendingLooksKeeps }
{}

/// A read that is put on a name is the last of its reads.
pub fn reads_join_last()
    ensures { ReadsJoinLast }
{}
