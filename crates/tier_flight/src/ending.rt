//! What is left of one name's work when a call ends.
ghost use Rattle.std.specs.Prelude.{◌≡◌};
ghost use Rattle.tier_flight.specs.Ends.{is_call, is_other, left_of, others_of, reads_left, without_call};

use obj_model::Items;
use tier_types::{Flight, ReadFlight, ReadList};

// Whether it is this call.
pub(crate) fn is_call(call: u64, other: Option<u64>) -> bool
    ensures { result ≡ is_call call other }
{
    match other {
        Some(other) => other == call,
        None => false,
    }
}

// The call, unless it is the one that ends.
fn without_call(call: u64, other: Option<u64>) -> Option<u64>
    ensures { result ≡ without_call call other }
{
    if is_call(call, other) { None } else { other }
}

// Whether it is another call's read.
pub(crate) fn is_other(call: u64, read: &ReadFlight) -> bool
    ensures { result ≡ is_other call read.now }
{
    read.call != call
}

// The reads of other calls.
fn others_of(call: u64, list: ReadList) -> Vec<ReadFlight>
    ensures { result.items ≡ others_of call list }
{
    let mut reads = list.into_vec();
    reads.retain(|read| is_other(call, read));
    reads
}

// Reads, if there are any.
fn reads_left(reads: Vec<ReadFlight>) -> Option<Flight>
    ensures { result ≡ reads_left reads.items }
{
    if reads.is_empty() {
        return None;
    }
    Some(Flight::Reads {
        list: Items::from_vec(reads),
    })
}

// What the end of a call leaves of this work.
pub(crate) fn left_of(call: u64, flight: Flight) -> Option<Flight>
    ensures { result ≡ left_of call flight }
{
    match flight {
        Flight::Promote { call: asker, .. } if asker == call => None,
        Flight::Write {
            driver,
            owner,
            opid,
            req,
        } => {
            let driver = without_call(call, driver);
            Some(Flight::Write {
                driver,
                owner,
                opid,
                req,
            })
        }
        Flight::Reads { list } => reads_left(others_of(call, list)),
        Flight::Flush { call: waiter, .. } if is_call(call, waiter) => None,
        other => Some(other),
    }
}
