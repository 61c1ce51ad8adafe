//! Reading a journal, from its first gate to its closed one.
ghost use Rattle.tier_outside.specs.Disk.{disk_limit, RangeStands};
ghost use Rattle.std.specs.Prelude.{◌≡◌, ◌+◌, ◌≤◌, IfOk};
ghost use Rattle.tier_outside.specs.Causes.{Rose};
ghost use Rattle.tier_outside.specs.DiskMoments.{Now};
ghost use Rattle.gate_journal.specs.Calls.{WalkEnds};
ghost use Rattle.gate_journal.specs.Stands.{StandsAs};

use crate::Journal;
use crate::record::read_record;
use obj_model::{Bytes, Items};
use std::alloc::Global;
use store_face::StoreFault;
use tier_outside::Disk;

/// Reads the journal that begins at an offset, of which only bytes before the end count (offsets of
/// at most 2^41): its payloads in their order, and where it stands, to append to it. It writes
/// nothing.
///
/// `BadImage` tells the gate that breaks it: the first one where that does not lie on the disk and
/// before the end, or an open one whose payload or following gate does not. Over a disk that does
/// not tell its content the same answers come, of what it gives.
pub fn walk<D: Disk>(
    alloc: Global,
    disk: &mut D,
    at: u64,
    end: u64,
) -> Result<(Journal, Items<Bytes>), StoreFault>
    requires order { at ≤ end }
    requires limit { end ≤ disk_limit }

    ensures read { WalkEnds at end (D.moments disk.old)
        (Rose (D.faults disk.old) (D.faults disk.new)) result }

    // Where its bytes are settled, as after a restart, it can be appended to.
    ensures stands { IfOk result
        (λ walked. Now (D.moments disk.new)
        (λ d. RangeStands at (walked.0.next + 1) d → StandsAs walked.0 walked.1 d)) }

    ensures same { D.moments disk.new ≡ D.moments disk.old }
    ensures later { D.faults disk.old ≤ D.faults disk.new }
{
    let limit = disk.size()?.min(end);
    let mut payloads = Items::new(alloc);
    let mut next = at;
    while let Some(payload) = read_record(alloc, disk, next, limit)? {
        next += 5 + payload.as_slice().len() as u64;
        payloads.push(payload)?;
    }
    let start = at;
    Ok((Journal { start, next, end }, payloads))
}
