//! Giving standing work to a call, and chunks to a promotion, in place.
ghost use Rattle.std.specs.Prelude.{◌≡◌, IfOk, MatchResult, OnErr, Some};
ghost use Rattle.std.specs.FinMap as fin;
ghost use Rattle.copy_chunk.specs.Gathers.{Adds};
ghost use Rattle.tier_flight.specs.Changes.{IsFedIn, IsPromote, IsTakenIn, IsUnheld, fed_at, gathered, held_at};

use crate::leaving::{in_between, put_left};
use copy_chunk::{Added, Chunk};
use obj_model::{Name, NameMap, NoMemory};
use tier_types::Flight;

// The work, for which this call waits from now on.
fn held(call: u64, work: Flight) -> Option<Flight>
    ensures { result ≡ held_at call (Some work) }
{
    match work {
        Flight::Write {
            owner,
            opid,
            req,
            ..
        } => {
            let driver = Some(call);
            Some(Flight::Write {
                driver,
                owner,
                opid,
                req,
            })
        }
        Flight::Flush {
            opid,
            seq,
            blocking,
            drain,
            ..
        } => {
            let call = Some(call);
            Some(Flight::Flush {
                call,
                opid,
                seq,
                blocking,
                drain,
            })
        }
        other => Some(other),
    }
}

/// Lets a call wait for the work on a name from now on.
#[tactic(auto, using(crate::proofs::Joined::has_work))]
pub(crate) fn hold(flights: &mut NameMap<Flight>, name: &Name, call: u64)
    requires { IsUnheld (fin.get flights.old name.now) }
    ensures { IsTakenIn call name.now flights.old flights.new }
{
    if let Ok(work) = flights.swap(name, in_between()) {
        put_left(flights, name, held(call, work));
    }
}

// The promotion with a chunk more where it fits, and what became of the chunk. Without memory
// the promotion is as it was.
fn fed(work: Flight, chunk: Chunk) -> (Flight, Result<Added, NoMemory>)
    requires { IsPromote (Some work) }
    ensures adds { IfOk result.1
        (λ added. Adds chunk (gathered (Some work)) added (gathered (Some result.0))) }
    ensures stays { Some result.0 ≡ fed_at (gathered (Some result.0)) (Some work) }
    ensures refused { OnErr result.1 (result.0 ≡ work) }
{
    match work {
        Flight::Promote {
            call,
            opid,
            mut gather,
            ask,
        } => {
            let added = gather.add(chunk);
            let work = Flight::Promote {
                call,
                opid,
                gather,
                ask,
            };
            (work, added)
        }
        other => (other, Err(NoMemory)),
    }
}

/// Gives a chunk to the promotion on a name. Without memory nothing changes.
#[tactic(auto, using(crate::proofs::Joined::has_work, crate::proofs::Fed::fed_in, crate::proofs::Fed::as_it_was))]
pub(crate) fn feed(
    flights: &mut NameMap<Flight>,
    name: &Name,
    chunk: Chunk,
) -> Result<Added, NoMemory>
    requires { IsPromote (fin.get flights.old name.now) }
    ensures fed { IfOk result (λ added. IsFedIn name.now chunk added flights.old flights.new) }
    ensures refused { OnErr result (flights.new ≡ flights.old) }
{
    match flights.swap(name, in_between()) {
        Ok(work) => {
            let (work, added) = fed(work, chunk);
            put_left(flights, name, Some(work));
            added
        }
        Err(_) => Err(NoMemory),
    }
}
