//! A proxied write, from its call's first step to its answer.
ghost use Rattle.tier_view.specs.Laws.{BeginningWritesKeeps, DeliveringActsKeeps, OpeningCallsKeeps, SendingWritesKeeps, SettlingActsKeeps};

/// A call is entered in the table, at any moment.
pub fn opening_calls_keeps()
    ensures { OpeningCallsKeeps }
{}

/// The write request of a call in flight begins, on a free name without a record.
pub fn beginning_writes_keeps()
    ensures { BeginningWritesKeeps }
{}

/// Its Write is sent, at first, again, or by a call that took it over.
pub fn sending_writes_keeps()
    ensures { SendingWritesKeeps }
{}

/// A Write reaches the base and acts, also when its call has ended: its commit is made, in doubt,
/// or not made. The act is its owner's.
pub fn delivering_acts_keeps()
    ensures { DeliveringActsKeeps }
{}

/// A store is opened anew, and what it shows settles the act in doubt: it enters the history under
/// its call, or it never was.
pub fn settling_acts_keeps()
    ensures { SettlingActsKeeps }
{}
