//! Calls in flight.
ghost use Rattle.std.specs.Prelude.{MatchOption};
ghost use Rattle.tier_core.specs.Turns.{HasNoTurn, HasTurn};

use crate::Group;
use store_face::Store;

/// A call in flight that has a line, and how many acts there were at its first step.
#[derive(Clone, Copy, Debug, PartialEq, Eq)]
pub struct Turn {
    pub call: u64,
    pub line: u32,
    pub begin: u64,
}

impl<P: Store> Group<P> {
    /// The turn of a call, if it is in flight and has a line.
    pub fn turn_of(&self, call: u64) -> Option<Turn>
        ensures { MatchOption result (HasNoTurn self.now call) (HasTurn self.now call) }
    {
        match self.calls.get(call) {
            Some(entry) if !entry.ended => match entry.line {
                Some(line) => Some(Turn {
                    call,
                    line,
                    begin: entry.begin,
                }),
                None => None,
            },
            _ => None,
        }
    }
}
