//! The first bytes of a disk: whether it is empty, refused, or a log of some pair.
ghost use Rattle.std.specs.Prelude.{◌≡◌, ◌↔◌, ◌<◌, ◌≤◌, IsTrue, length, slice_index, IfOk};
ghost use Rattle.tier_outside.specs.Causes.{HasCause};
ghost use Rattle.tier_outside.specs.Disk.{IsImage};
ghost use Rattle.tier_outside.specs.DiskMoments.{Now};
ghost use Rattle.log_image.specs.Fronts.{FrontIs, head_fault, pair_at};
ghost use Rattle.log_image.specs.Steps.Looking.{has_rest, stands};

use crate::head::{CLOSED, OPEN, role_byte};
use byteorder::{BigEndian, ByteOrder};
use obj_model::Pool;
use tier_outside::{Disk, DiskFault};

// The bytes of a disk without transactions, which tell all that is asked here.
const HEAD: usize = 23;

/// What the first bytes of a disk say.
#[derive(Clone, Copy, Debug, PartialEq, Eq)]
pub enum Front {
    /// It has at most one byte, or it begins with a zero. Is there a first byte that is zero?
    Blank { zeroed: bool },
    /// Formatting for this pair stopped at its last write, that of the first gate.
    HalfOpen { pair: u64 },
    /// It is no log of this pool: the test at this offset fails.
    Bad { at: u64 },
    /// Its head is that of a log of this pair.
    Headed { pair: u64 },
}

/// Reads what the first bytes of a disk say. It writes nothing.
///
/// The tests come in this order, each with the offset at which it is told: the first gate is open
/// (0), the length is that of a head (1), the magic is `RTLOG001` (5), the pool is the one that is
/// asked for (13). A head that ends before its pair does is broken at its gate, 0.
pub fn look_at_head<D: Disk>(disk: &mut D, role: Pool) -> Result<Front, DiskFault>
    ensures front { IfOk result
        (λ front. Now (D.moments disk.old) (λ d. FrontIs role d.content front)) }
    ensures same { D.moments disk.new ≡ D.moments disk.old }
    ensures image { Now (D.moments disk.new) (λ d. IsImage d d.content) }
    ensures cause { HasCause (D.faults disk.old) (D.faults disk.new) result }
{
    let mut bytes = [0; HEAD];
    let count = disk.read_at(0, &mut bytes)?;
    Ok(front_of(&bytes[..count], role))
}

// What the first bytes of a disk say, of which all are here, or so many as make a disk without
// transactions.
fn front_of(bytes: &[u8], role: Pool) -> Front
    ensures { FrontIs role bytes.now result }
{
    let zeroed = begins_with_zero(bytes);
    if zeroed || bytes.len() <= 1 {
        return Front::Blank { zeroed };
    }
    if bytes[0] != OPEN && has_rest(bytes, role) {
        return Front::HalfOpen {
            pair: pair_at(bytes),
        };
    }
    match head_fault(bytes, role) {
        Some(at) => Front::Bad { at },
        None => Front::Headed {
            pair: pair_at(bytes),
        },
    }
}

// Is there a first byte, and is it zero?
fn begins_with_zero(bytes: &[u8]) -> bool
    ensures { IsTrue result ↔ ((0 < length bytes.now) × (slice_index bytes.now 0 ≡ 0)) }
{
    !bytes.is_empty() && bytes[0] == 0
}

// Does all that formatting writes behind the first byte stand there, for whichever pair?
fn has_rest(bytes: &[u8], role: Pool) -> bool
    ensures { result ≡ has_rest role bytes.now }
{
    stands_at(bytes, 1, &[0, 0, 0, 17])
        && stands_at(bytes, 5, b"RTLOG001")
        && stands_at(bytes, 13, &[role_byte(role)])
        && stands_at(bytes, 22, &[CLOSED])
}

// The place of the first test that the head fails.
fn head_fault(bytes: &[u8], role: Pool) -> Option<u64>
    ensures { result ≡ head_fault role bytes.now }
{
    if !stands_at(bytes, 0, &[OPEN]) {
        return Some(0);
    }
    if !stands_at(bytes, 1, &[0, 0, 0, 17]) {
        return Some(1);
    }
    if !stands_at(bytes, 5, b"RTLOG001") {
        return Some(5);
    }
    if !stands_at(bytes, 13, &[role_byte(role)]) {
        return Some(13);
    }
    if bytes.len() < 22 {
        return Some(0);
    }
    None
}

// The number of the pair that stands in a head.
#[tactic(auto, using(crate::proofs::Looks::pair_read))]
fn pair_at(bytes: &[u8]) -> u64
    requires { 22 ≤ length bytes.now }
    ensures { result ≡ pair_at bytes.now }
{
    BigEndian::read_u64(&bytes[14..])
}

// Do these bytes stand at this place?
fn stands_at(bytes: &[u8], at: usize, wanted: &[u8]) -> bool
    ensures { result ≡ stands at wanted.now bytes.now }
{
    let behind = bytes.split_at(at.min(bytes.len())).1;
    behind.starts_with(wanted)
}
