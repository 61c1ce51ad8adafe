//! A client's call begins.
ghost use Rattle.std.specs.Prelude.{◌≡◌};
ghost use Rattle.tier_node.specs.Runs.{IsRun};
ghost use Rattle.tier_node.specs.Steps.{TakesCall, told_begun};

use crate::Outcome;
use store_face::Store;
use tier_core::Group;
use tier_moves::{Begun, client_begin, copy_ask};
use tier_types::Ask;

// What is told of a client's call that began.
fn told_begun(begun: Begun) -> Outcome
    ensures { result ≡ told_begun begun }
{
    match begun {
        Begun::Unlawful => Outcome::Unlawful,
        Begun::HistoryFull { entries, bytes } => Outcome::HistoryFull { entries, bytes },
        Begun::NotReady => Outcome::NotReady,
        Begun::Answered { call } => Outcome::Answered { call },
        Begun::Unbuilt(what) => Outcome::Unbuilt(what),
        Begun::NoMemory => Outcome::NoMemory,
    }
}

/// Begins a client's call on this line.
pub(crate) fn begin<P: Store>(g: &mut Group<P>, line: u32, ask: &Ask) -> Outcome
    ensures steps { TakesCall line ask.now g.old g.new result }
    ensures run { IsRun g.old g.new }
{
    match copy_ask(ask) {
        Ok(ask) => told_begun(client_begin(g, line, ask)),
        Err(_) => Outcome::NoMemory,
    }
}
