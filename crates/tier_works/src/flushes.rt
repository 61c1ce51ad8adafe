//! A flush begins, its Install is sent, and a call comes for one that was begun alone.
ghost use Rattle.tier_works.specs.Flushes.{FlushesFlyAloneKeeps, FlushesFlyKeeps, SendingInstallsKeeps, TakingFlushesKeeps, TakingOldFlushesKeeps};

/// A flush begins that its call waits for, and its Install is sent.
pub fn flushes_fly_keeps()
    ensures { FlushesFlyKeeps }
{}

/// A flush begins for which nobody waits, and its Install is sent.
pub fn flushes_fly_alone_keeps()
    ensures { FlushesFlyAloneKeeps }
{}

/// The Install of a flush is sent again, with the state that its record has now.
pub fn sending_installs_keeps()
    ensures { SendingInstallsKeeps }
{}

/// A call takes the flush that was begun alone on a name, at any moment.
pub fn taking_flushes_keeps()
    ensures { TakingFlushesKeeps }
{}

/// One of an epoch that is over is taken out, at any moment.
pub fn taking_old_flushes_keeps()
    ensures { TakingOldFlushesKeeps }
{}
