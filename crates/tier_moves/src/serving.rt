//! A client's call is served from the cache's record of its name.
ghost use Rattle.std.specs.FinMap as fin;
ghost use Rattle.std.specs.Prelude.{◌≡◌};
ghost use Rattle.tier_moves.specs.Asks.{writes};
ghost use Rattle.tier_moves.specs.Begins.{IsEnteredNow, IsStepOf, ServesCall, told_of, told_unread};
ghost use Rattle.tier_moves.specs.Stands.{stand_of};
ghost use Rattle.tier_moves.specs.declared.standing.Stand.TheVariants.{Clear};
ghost use Rattle.tier_types.specs.Flights.{name_asked};

use crate::Begun;
use crate::ending::end_by;
use crate::ways::go;
use cache_pool::CacheFault;
use obj_model::{Path, Pool};
use store_face::{Store, StoreFault};
use tier_chron::Answer;
use tier_core::{Group, Served, Turn};
use tier_types::Ask;

// The answer of a fault of the cache's store; want of memory has none.
fn told_of(fault: StoreFault) -> Option<Answer>
    ensures { result ≡ told_of fault }
{
    match fault {
        StoreFault::Disk => Some(Answer::DiskFault { pool: Pool::Cache }),
        StoreFault::BadImage { at } => Some(Answer::Damaged {
            pool: Pool::Cache,
            at,
        }),
        StoreFault::NoSpace { used, need, limit } => Some(Answer::NoSpace {
            pool: Pool::Cache,
            used,
            need,
            limit,
        }),
        StoreFault::Worn { limit } => Some(Answer::Worn { limit }),
        StoreFault::NoMemory => None,
    }
}

// The answer where a record was not read; want of memory has none.
fn told_unread(fault: CacheFault) -> Option<Answer>
    ensures { result ≡ told_unread fault }
{
    match fault {
        CacheFault::Store(fault) => told_of(fault),
        CacheFault::BadRecord { name } => Some(Answer::BadRecord {
            pool: Pool::Cache,
            name,
        }),
    }
}

/// Serves a client's call, which was entered just now, from the record of its name, and ends it:
/// with an answer, with the fault that it met, or for want of memory without one. Where there is no
/// record it goes the way of its mode.
pub(crate) fn serve<P: Store>(g: &mut Group<P>, turn: Turn, ask: &Ask) -> Begun
    requires entered { IsEnteredNow g.old turn ask.now }
    requires clear { stand_of (fin.get g.old.traffic.flights (name_asked ask.now)) (writes ask.now)
        ≡ Clear }
    ensures served { ServesCall turn ask.now g.old g.new result }
    ensures step { IsStepOf g.old g.new }
{
    g.rest();
    match g.serve_here(turn, ask) {
        Served::Answered => Begun::Answered { call: turn.call },
        Served::Absent => go(g, turn, ask),
        Served::Unread(fault) => end_by(g, turn, None, told_unread(fault)),
        Served::Uncommitted(fault) => end_by(g, turn, Some(Path::Hit), told_of(fault)),
    }
}
