//! Adding records to a journal, so that at each moment a stop leaves a record whole or not there.
ghost use Rattle.std.specs.Prelude.{◌≡◌, ◌⊎◌, ◌+◌, ◌<◌, ◌≤◌, ◌^◌, List, ℕ, [], ◌∷◌, ◌++◌, length};
ghost use Rattle.std.specs.Prelude.{IfOk, OnOk, OnErr};
ghost use Rattle.tier_outside.specs.Causes.{HasCause, Rose};
ghost use Rattle.tier_outside.specs.Disk.{disk_limit, settled, StopsIn};
ghost use Rattle.tier_outside.specs.DiskMoments.{Now, Then, Leaves};
ghost use Rattle.gate_journal.specs.Calls.{AddEnds};
ghost use Rattle.gate_journal.specs.Journals.{IsClosed};
ghost use Rattle.gate_journal.specs.Stands.{InRange, Standing, StandsAs, HoldsWithOrWithout};
ghost use Rattle.gate_journal.specs.Stands.{gate_alone, longer, recorded};

use crate::Journal;
use crate::record::{Record, record_body};
use crate::step::{add_record, close_gate};
use std::alloc::Global;
use store_face::StoreFault;
use tier_outside::{Disk, DiskFault};

/// Begins a journal at an offset with its first payload (below 2^32 bytes), all of it before the
/// end (at most 2^41), and settles it. A first gate that is open or not there is closed before.
///
/// `NoSpace` comes exactly where the record and the gate behind it do not fit before the end: used
/// is the offset, need is the payload and 6 bytes, the limit is the end. Without space or memory
/// nothing is written.
pub fn start<D: Disk>(
    alloc: Global,
    disk: &mut D,
    at: u64,
    end: u64,
    first: &[u8],
) -> Result<Journal, StoreFault>
    requires order { at ≤ end }
    requires limit { end ≤ disk_limit }
    requires size { length first.now < 2 ^ 32 }

    ensures answer { AddEnds at (length first.now + 6) end
        ((D.moments disk.new ≡ D.moments disk.old) × (D.faults disk.new ≡ D.faults disk.old))
        (Rose (D.faults disk.old) (D.faults disk.new)) result }
    ensures journal { IfOk result (λ journal. journal ≡ longer (gate_alone at end) first.now) }
    ensures written { OnOk result
        (Then (D.moments disk.old) (D.moments disk.new)
        (λ d e. e ≡ settled (recorded at first.now d.content))) }
    ensures stands { IfOk result
        (λ journal. Now (D.moments disk.new) (StandsAs journal (first.now ∷ []))) }
    ensures standing { IfOk result (λ journal. Now (D.moments disk.new) (Standing journal)) }

    // Where a closed gate stood at the offset, a stop at any moment of the call leaves a closed
    // gate there, or the whole record.
    ensures closed_before { Leaves (D.moments disk.old) (D.moments disk.new)
        (λ d image. StandsAs (gate_alone at end) [] d
        → HoldsWithOrWithout (gate_alone at end) [] first.now image) }

    // Where none was read there, it may also leave what it might have left before, but for that one
    // byte.
    ensures open_before { Leaves (D.moments disk.old) (D.moments disk.new)
        (λ d image. ¬ IsClosed d.content at
        → StopsIn at 1 d image ⊎ HoldsWithOrWithout (gate_alone at end) [] first.now image) }

    // Outside of the record and the gate behind it, it leaves what it might have left before.
    ensures outside { Leaves (D.moments disk.old) (D.moments disk.new)
        (StopsIn at (length first.now + 6)) }
    ensures later { D.faults disk.old ≤ D.faults disk.new }
{
    let need = first.len() as u64 + 6;
    if end < at + need {
        return Err(StoreFault::NoSpace {
            used: at,
            need,
            limit: end,
        });
    }
    let body = record_body(alloc, first)?;
    close_gate(disk, at)?;
    add_record(disk, at, body.as_slice())?;
    let start = at;
    let next = at + need - 1;
    Ok(Journal { start, next, end })
}

/// Adds a record behind a journal as the last `start`, `walk`, `add` or `append` that answered Ok
/// left it, below its end, and settles it. It takes no memory, and only the disk makes it fail.
/// After that the journal has to be walked again before the next record is added.
pub fn add<D: Disk>(disk: &mut D, journal: &mut Journal, more: Record) -> Result<(), DiskFault>
    requires in_range { InRange journal.old }
    requires size { length more < 2 ^ 32 }
    requires fits { journal.old.next + 6 + length more ≤ journal.old.end }
    requires standing { Now (D.moments disk.old) (Standing journal.old) }

    ensures cause { HasCause (D.faults disk.old) (D.faults disk.new) result }
    ensures moved { OnOk result (journal.new ≡ longer journal.old more) }
    ensures kept { OnErr result (journal.new ≡ journal.old) }
    ensures written { OnOk result (Then (D.moments disk.old) (D.moments disk.new)
        (λ d e. e ≡ settled (recorded journal.old.next more d.content))) }
    ensures stands { OnOk result (Then (D.moments disk.old) (D.moments disk.new)
        (λ d e. (payloads : List (List ℕ)) → StandsAs journal.old payloads d
        → StandsAs journal.new (payloads ++ more ∷ []) e)) }
    ensures standing { OnOk result (Now (D.moments disk.new) (Standing journal.new)) }

    // A stop at any moment of the call leaves the payloads from before it, with the new one or
    // without.
    ensures any_moment { Leaves (D.moments disk.old) (D.moments disk.new)
        (λ d image. (payloads : List (List ℕ)) → StandsAs journal.old payloads d
        → HoldsWithOrWithout journal.old payloads more image) }

    // Outside of the record and the gate behind it, it leaves what it might have left before.
    ensures outside { Leaves (D.moments disk.old) (D.moments disk.new)
        (StopsIn journal.old.next (length more + 6)) }
{
    let body = more.bytes();
    add_record(disk, journal.next, body)?;
    journal.next += body.len() as u64;
    Ok(())
}

/// Appends a payload (below 2^32 bytes) to a journal: its record is made and added.
///
/// `NoSpace` comes exactly where the record and the gate behind it do not fit before the journal's
/// end: used is the offset behind its closed gate, need is the payload and 5 bytes, the limit is
/// the end. Without space or memory nothing is written. After `Disk` the journal has to be walked
/// again before the next append.
pub fn append<D: Disk>(
    alloc: Global,
    disk: &mut D,
    journal: &mut Journal,
    payload: &[u8],
) -> Result<(), StoreFault>
    requires in_range { InRange journal.old }
    requires size { length payload.now < 2 ^ 32 }
    requires standing { Now (D.moments disk.old) (Standing journal.old) }

    ensures answer { AddEnds (journal.old.next + 1) (length payload.now + 5) journal.old.end
        ((D.moments disk.new ≡ D.moments disk.old) × (D.faults disk.new ≡ D.faults disk.old))
        (Rose (D.faults disk.old) (D.faults disk.new)) result }
    ensures moved { OnOk result (journal.new ≡ longer journal.old payload.now) }
    ensures kept { OnErr result (journal.new ≡ journal.old) }
    ensures written { OnOk result
        (Then (D.moments disk.old) (D.moments disk.new)
        (λ d e. e ≡ settled (recorded journal.old.next payload.now d.content))) }
    ensures stands { OnOk result
        (Then (D.moments disk.old) (D.moments disk.new)
        (λ d e. (payloads : List (List ℕ)) → StandsAs journal.old payloads d
        → StandsAs journal.new (payloads ++ payload.now ∷ []) e)) }
    ensures standing { OnOk result (Now (D.moments disk.new) (Standing journal.new)) }

    // A stop at any moment of the call leaves the payloads from before it, with the new one or
    // without.
    ensures any_moment { Leaves (D.moments disk.old) (D.moments disk.new)
        (λ d image. (payloads : List (List ℕ)) → StandsAs journal.old payloads d
        → HoldsWithOrWithout journal.old payloads payload.now image) }

    // Outside of the record and the gate behind it, it leaves what it might have left before.
    ensures outside { Leaves (D.moments disk.old) (D.moments disk.new)
        (StopsIn journal.old.next (length payload.now + 6)) }
    ensures later { D.faults disk.old ≤ D.faults disk.new }
{
    match Record::new(alloc, journal, payload) {
        Ok(record) => {
            add(disk, journal, record)?;
            Ok(())
        }
        Err(fault) => Err(fault),
    }
}
