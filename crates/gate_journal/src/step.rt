//! Writes that are settled, of which the journal's calls are made.
ghost use Rattle.std.specs.Prelude.{◌≡◌, ◌+◌, ◌<◌, ◌≤◌, length, OnOk, IfOk};
ghost use Rattle.tier_outside.specs.Causes.{HasCause};
ghost use Rattle.tier_outside.specs.Disk.{disk_limit, settled, written, StopsIn};
ghost use Rattle.tier_outside.specs.DiskMoments.{Then, Leaves};
ghost use Rattle.gate_journal.specs.Steps.Writing.{AddStops, GateCloses, GateStops, opened, staged};

use tier_outside::{Disk, DiskFault};

/// The value of an open gate.
pub const OPEN: u8 = 1;

/// The value of the closed gates that are written.
pub const CLOSED: u8 = 0;

/// Writes bytes at an offset and settles them: before that a stop leaves what one write of that
/// range might leave.
pub fn put<D: Disk>(disk: &mut D, off: u64, bytes: &[u8]) -> Result<(), DiskFault>
    requires { off + length bytes.now ≤ disk_limit }
    ensures any_moment { Leaves (D.moments disk.old) (D.moments disk.new)
        (λ d image. StopsIn off (length bytes.now) d image) }
    ensures done { OnOk result
        (Then (D.moments disk.old) (D.moments disk.new)
        (λ d e. (e ≡ settled (written off bytes.now d.content))
        × StopsIn off (length bytes.now) d (written off bytes.now d.content))) }
    ensures cause { HasCause (D.faults disk.old) (D.faults disk.new) result }
{
    disk.write_at(off, bytes)?;
    disk.sync()?;
    Ok(())
}

/// Adds a record behind a gate. Its body, which is all that stands behind the gate, is settled
/// before the gate is opened: a gate that a stop leaves open has a whole record behind it.
pub fn add_record<D: Disk>(disk: &mut D, gate: u64, body: &[u8]) -> Result<(), DiskFault>
    requires { gate + 1 + length body.now ≤ disk_limit }
    ensures any_moment { Leaves (D.moments disk.old) (D.moments disk.new)
        (λ d image. AddStops gate body.now d image) }
    ensures done { OnOk result
        (Then (D.moments disk.old) (D.moments disk.new)
        (λ d e. (e ≡ settled (opened gate body.now d.content))
        × StopsIn (gate + 1) (length body.now) d (staged gate body.now d.content))) }
    ensures cause { HasCause (D.faults disk.old) (D.faults disk.new) result }
{
    put(disk, gate + 1, body)?;
    put(disk, gate, &[OPEN])?;
    Ok(())
}

/// Closes the gate at an offset where it is open or not there. A gate that reads as closed is not
/// written again: a stop in that write could leave it open over bytes that are not whole.
pub fn close_gate<D: Disk>(disk: &mut D, at: u64) -> Result<(), DiskFault>
    requires { at < disk_limit }
    ensures any_moment { Leaves (D.moments disk.old) (D.moments disk.new) (GateStops at) }
    ensures done { OnOk result (Then (D.moments disk.old) (D.moments disk.new) (GateCloses at)) }
    ensures cause { HasCause (D.faults disk.old) (D.faults disk.new) result }
{
    let mut gate = [OPEN; 1];
    let count = disk.read_at(at, &mut gate)?;
    if count == 0 || gate[0] == OPEN {
        put(disk, at, &[CLOSED])?;
    }
    Ok(())
}
