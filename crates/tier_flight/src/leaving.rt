//! Taking a call that ends out of the work on names, in place.
ghost use Rattle.std.specs.Prelude.{◌≡◌, IsSome};
ghost use Rattle.std.specs.FinMap as fin;
ghost use Rattle.tier_flight.specs.Ends.{IsLeftIn, put_left};

use crate::ending::left_of;
use obj_model::{Name, NameMap};
use tier_types::Flight;

/// Leaves of one name's work what the end of the call leaves.
pub(crate) fn leave_name(flights: &mut NameMap<Flight>, name: &Name, call: u64)
    ensures { IsLeftIn call name.now flights.old flights.new }
{
    match flights.swap(name, in_between()) {
        Ok(flight) => put_left(flights, name, left_of(call, flight)),
        Err(_) => {
            flights.remove(name);
        }
    }
}

/// Puts what is left in place of the work that stands on the name, or takes that out.
pub(crate) fn put_left(flights: &mut NameMap<Flight>, name: &Name, left: Option<Flight>)
    requires { IsSome (fin.get flights.old name.now) }
    ensures { flights.new ≡ put_left flights.old name.now left }
{
    let Some(flight) = left else {
        flights.remove(name);
        return;
    };
    // The name has a place, so this takes no memory.
    let _ = flights.swap(name, flight);
}

/// Stands on a name while its work is changed.
pub(crate) fn in_between() -> Flight {
    Flight::Flush {
        call: None,
        opid: 0,
        seq: 0,
        blocking: false,
        drain: false,
    }
}
