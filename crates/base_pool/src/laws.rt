//! Laws of a base, in the words of its callers.
ghost use Rattle.base_pool.specs.Laws.{AheadIsRefused, ChunksGather, KeptIsAnswered, LowerInstallLeaves, NothingFalls, OldIsRefused, ReadingsLeave, StopsBetween, WritesOnce};

/// At each moment of a message a stop leaves what it would have left before, or the map before with
/// this message's one change.
pub fn stops_between()
    ensures { StopsBetween }
{}

/// No message lowers the epoch or the `seq` of a name, in memory or in any map that a stop may
/// leave
/// while it is served.
pub fn nothing_falls()
    ensures { NothingFalls }
{}

/// A message of an older epoch is refused, always, and changes nothing.
pub fn old_is_refused()
    ensures { OldIsRefused }
{}

/// A message about a name of an epoch that the base was not told of is refused, always, and changes
/// nothing.
pub fn ahead_is_refused()
    ensures { AheadIsRefused }
{}

/// An Install of a `seq` that is no higher than the name's changes nothing, and is answered as
/// installed, with the `seq` of the message.
pub fn lower_install_leaves()
    ensures { LowerInstallLeaves }
{}

/// A request that acted and comes again is answered with the same reply, and acts no more.
pub fn writes_once()
    ensures { WritesOnce }
{}

/// A request that acted is kept with its reply in the state of its name. While it is kept there,
/// whatever came in between, it is answered with that reply when it comes again, and acts no more.
pub fn kept_is_answered()
    ensures { KeptIsAnswered }
{}

/// A reading and a chunk leave the map and the epoch, however they end.
pub fn readings_leave()
    ensures { ReadingsLeave }
{}

/// The chunks of a state on which nothing acts meanwhile, asked for one after another, gather to
/// it.
pub fn chunks_gather()
    ensures { ChunksGather }
{}
