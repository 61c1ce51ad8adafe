//! Putting work on a name.
ghost use Rattle.std.specs.Prelude.{◌≡◌, ◌++◌, if◌then◌else◌, Some, IsSome, OnErr, OnOk, MatchResult};
ghost use Rattle.std.specs.FinMap as fin;
ghost use Rattle.tier_flight.specs.Ends.{put_left};
ghost use Rattle.tier_flight.specs.Joins.{IsJoinedIn, MayJoin, joined};
ghost use Rattle.tier_types.specs.declared.flight.Flight.TheVariants as flight;

use crate::leaving::{in_between, put_left};
use obj_model::{Items, Name, NameMap, NoMemory};
use tier_types::{Flight, ReadList};

/// Puts work on a name that has none, or reads behind the reads that it has. Without memory nothing
/// changes.
#[tactic(auto, using(crate::proofs::Joined::has_work))]
pub(crate) fn join(flights: &mut NameMap<Flight>, name: Name, work: Flight) -> Result<(), NoMemory>
    requires { MayJoin (fin.get flights.old name) work }
    ensures added { OnOk result (IsJoinedIn name work flights.old flights.new) }
    ensures refused { OnErr result (flights.new ≡ flights.old) }
{
    match flights.swap(&name, in_between()) {
        Ok(standing) => {
            join_standing(flights, &name, standing, work)?;
            Ok(())
        }
        Err(_) => {
            flights.insert(name, work)?;
            Ok(())
        }
    }
}

// Puts reads behind the reads that stood on a name; without memory puts those back.
fn join_standing(
    flights: &mut NameMap<Flight>,
    name: &Name,
    standing: Flight,
    work: Flight,
) -> Result<(), NoMemory>
    requires place { IsSome (fin.get flights.old name.now) }
    requires joins { MayJoin (Some standing) work }
    ensures added { OnOk result (flights.new ≡ put_left flights.old name.now
        (Some (joined (Some standing) work))) }
    ensures refused { OnErr result (flights.new ≡ put_left flights.old name.now (Some standing)) }
{
    match joined(standing, work) {
        Ok(both) => {
            put_left(flights, name, Some(both));
            Ok(())
        }
        Err(standing) => {
            put_left(flights, name, Some(standing));
            Err(NoMemory)
        }
    }
}

// Reads behind other reads; without memory for them those that stood.
fn joined(standing: Flight, work: Flight) -> Result<Flight, Flight>
    requires { MayJoin (Some standing) work }
    ensures { MatchResult result (λ f. f ≡ joined (Some standing) work) (λ f. f ≡ standing) }
{
    match (standing, work) {
        (Flight::Reads { list }, Flight::Reads { list: more }) => {
            let (list, fits) = appended(list, more);
            if fits {
                Ok(Flight::Reads { list })
            } else {
                Err(Flight::Reads { list })
            }
        }
        (standing, _) => Err(standing),
    }
}

// The reads of both lists, and true; without memory those of the first, and false.
fn appended(list: ReadList, more: ReadList) -> (ReadList, bool)
    ensures { result.0 ≡ (if result.1 then list ++ more else list) }
{
    let mut reads = list.into_vec();
    let mut last = more.into_vec();
    let fits = reads.append(&mut last).is_ok();
    (Items::from_vec(reads), fits)
}
