//! The busy table.
ghost use Rattle.std.specs.Prelude.{◌≡◌, None};
ghost use Rattle.tier_flight.specs.Busy.{busy_of, by, flush_busy, read_busy, write_busy};

use obj_model::Kind;
use tier_types::Flight;

/// Unfinished work that holds up a call.
#[derive(Clone, Copy, Debug, PartialEq, Eq)]
pub struct Busy {
    pub kind: Kind,
    /// The number of the operation; for reads that of the oldest.
    pub opid: u64,
}

/// What a call wants to do with a name.
#[derive(Clone, Copy, Debug, PartialEq, Eq)]
pub enum Want {
    /// A read, in the cache or by proxy.
    Read,
    /// A read that promotes the name.
    PromoteRead,
    Write,
    /// A flush of either kind.
    Flush,
    Evict,
}

// Held up by work of this kind and number.
fn by(kind: Kind, opid: u64) -> Option<Busy>
    ensures { result ≡ by kind opid }
{
    Some(Busy { kind, opid })
}

// What this work holds up.
pub(crate) fn busy_of(flight: &Flight, want: Want) -> Option<Busy>
    ensures { result ≡ busy_of flight.now want }
{
    match flight {
        Flight::Promote { opid, .. } => by(Kind::Promote, *opid),
        Flight::Write {
            driver: Some(_),
            opid,
            ..
        } => by(Kind::Write, *opid),
        Flight::Write {
            driver: None,
            opid,
            ..
        } => left_busy(*opid, want),
        Flight::Reads { list } => match list.as_slice().first() {
            Some(oldest) => read_busy(oldest.opid, want),
            None => None,
        },
        Flight::Flush { opid, blocking, .. } => flush_busy(*blocking, *opid, want),
    }
}

// What a write request without a driver holds up.
fn left_busy(opid: u64, want: Want) -> Option<Busy>
    ensures { result ≡ write_busy None opid want }
{
    match want {
        Want::Read | Want::PromoteRead | Want::Write => None,
        Want::Flush | Want::Evict => by(Kind::Write, opid),
    }
}

// What reads hold up.
fn read_busy(opid: u64, want: Want) -> Option<Busy>
    ensures { result ≡ read_busy opid want }
{
    match want {
        Want::PromoteRead | Want::Write => by(Kind::Read, opid),
        Want::Read | Want::Flush | Want::Evict => None,
    }
}

// What a flush holds up.
fn flush_busy(blocking: bool, opid: u64, want: Want) -> Option<Busy>
    ensures { result ≡ flush_busy blocking opid want }
{
    match want {
        Want::Read | Want::PromoteRead => None,
        Want::Write if !blocking => None,
        Want::Write | Want::Flush | Want::Evict => by(Kind::Flush, opid),
    }
}
