//! How a disk is opened as a log: it is restarted and looked at, and then it is formatted, read, or
//! refused.
ghost use Rattle.std.specs.Prelude.{◌≡◌, ◌+◌, ◌≤◌, [], IfOk, IfErr, OnOk};
ghost use Rattle.tier_outside.specs.Causes.{HasCause, Rose};
ghost use Rattle.tier_outside.specs.Disk.{IsImage, Restarts, IsSettled};
ghost use Rattle.tier_outside.specs.DiskMoments.{Now, Then, Leaves, SomeImage};
ghost use Rattle.log_image.specs.Fronts.{FrontIs};
ghost use Rattle.log_image.specs.Images.{HoldsLog};
ghost use Rattle.log_image.specs.Standing.{IsLogJournal, LogStands};
ghost use Rattle.log_store.specs.Opens.{KeepsRefused, NotReread, OpensAs, OpeningStops, Refused, PeekEnds};

use crate::{AttachFault, Found};
use gate_journal::Journal;
use log_image::{Front, finish_format, format_log, look_at_head, read_log};
use obj_model::Pool;
use pool_map::PoolMap;
use std::alloc::Global;
use store_face::StoreFault;
use tier_outside::{Disk, DiskFault};

// Where the number of the pair stands in the head of a log.
const PAIR_PLACE: u64 = 14;

// Restarts a disk and looks at its first bytes.
fn look_anew<D: Disk>(disk: &mut D, role: Pool) -> Result<Front, DiskFault>
    ensures front { IfOk result (λ front. Now (D.moments disk.new)
        (λ d. FrontIs role d.content front)) }
    ensures restarted { OnOk result (Then (D.moments disk.old) (D.moments disk.new) Restarts) }
    ensures settled { OnOk result (Now (D.moments disk.new) IsSettled) }
    ensures stops { Leaves (D.moments disk.old) (D.moments disk.new) IsImage }
    ensures cause { HasCause (D.faults disk.old) (D.faults disk.new) result }
{
    disk.restart()?;
    look_at_head(disk, role)
}

/// Restarts a disk and says whether it is empty, or of which pair its log is. It writes nothing,
/// and takes no memory.
///
/// `BadImage` tells the first test that its head fails. What stands behind the head is not looked
/// at.
pub fn peek<D: Disk>(disk: &mut D, role: Pool) -> Result<Found, AttachFault>
    ensures found { PeekEnds role (D.moments disk.old)
        (Rose (D.faults disk.old) (D.faults disk.new)) result }
    ensures stops { Leaves (D.moments disk.old) (D.moments disk.new) IsImage }
    ensures later { D.faults disk.old ≤ D.faults disk.new }
{
    match look_anew(disk, role)? {
        Front::Blank { zeroed: _ } => Ok(Found::Empty),
        Front::HalfOpen { pair: _ } => Ok(Found::Empty),
        Front::Headed { pair } => Ok(Found::Pair(pair)),
        Front::Bad { at } => Err(AttachFault::BadImage { at }),
    }
}

/// Opens the log on a disk: where its journal stands, and its map.
pub(crate) fn open<D: Disk>(
    alloc: Global,
    disk: &mut D,
    role: Pool,
    pair: u64,
) -> Result<(Journal, PoolMap), AttachFault>
    ensures opened { IfOk result (λ opened. SomeImage (D.moments disk.old)
        (OpensAs role pair (record {
          table = opened.1.table;
          used = opened.0.next + 1;
        }))) }
    ensures journal { IfOk result (λ opened. IsLogJournal opened.0) }
    ensures rested { IfOk result (λ opened. opened.1.ready ≡ []) }
    ensures stands { IfOk result (λ opened. Now (D.moments disk.new)
        (LogStands role pair opened.0 opened.1.table)) }
    ensures refused { IfErr result (Refused role pair (D.moments disk.old)
        (Rose (D.faults disk.old) (D.faults disk.new))) }
    ensures kept { IfErr result (KeepsRefused (D.moments disk.old) (D.moments disk.new)) }
    ensures stops { Leaves (D.moments disk.old) (D.moments disk.new) (OpeningStops role pair) }
    ensures later { D.faults disk.old ≤ D.faults disk.new }
{
    match look_anew(disk, role)? {
        Front::Blank { zeroed } => {
            let journal = format_log(disk, role, pair, zeroed)?;
            Ok((journal, PoolMap::new(alloc)))
        }
        Front::HalfOpen { pair: half } => {
            if half != pair {
                return Err(AttachFault::WrongPair {
                    found: half,
                    want: pair,
                });
            }
            let journal = finish_format(disk, role, pair)?;
            Ok((journal, PoolMap::new(alloc)))
        }
        Front::Headed { pair: found } => {
            if found != pair {
                return Err(AttachFault::WrongPair { found, want: pair });
            }
            match read_log(alloc, disk) {
                Ok(held) => Ok(held),
                Err(StoreFault::Disk) => Err(AttachFault::Disk),
                Err(StoreFault::BadImage { at }) => Err(AttachFault::BadImage { at }),
                Err(_) => Err(AttachFault::NoMemory),
            }
        }
        Front::Bad { at } => Err(AttachFault::BadImage { at }),
    }
}

/// Restarts a disk and reads its log of this pool and pair anew. It formats nothing: what is no
/// such log is refused.
pub(crate) fn reread<D: Disk>(
    alloc: Global,
    disk: &mut D,
    role: Pool,
    pair: u64,
) -> Result<(Journal, PoolMap), StoreFault>
    ensures read { IfOk result (λ opened. SomeImage (D.moments disk.old)
        (λ image. HoldsLog role pair image (record {
          table = opened.1.table;
          used = opened.0.next + 1;
        }))) }
    ensures journal { IfOk result (λ opened. IsLogJournal opened.0) }
    ensures rested { IfOk result (λ opened. opened.1.ready ≡ []) }
    ensures stands { IfOk result (λ opened. Now (D.moments disk.new)
        (LogStands role pair opened.0 opened.1.table)) }
    ensures refused { IfErr result (NotReread role pair (D.moments disk.old)
        (Rose (D.faults disk.old) (D.faults disk.new))) }
    ensures stops { Leaves (D.moments disk.old) (D.moments disk.new) IsImage }
    ensures later { D.faults disk.old ≤ D.faults disk.new }
{
    match look_anew(disk, role)? {
        Front::Headed { pair: other } => {
            if other != pair {
                return Err(StoreFault::BadImage { at: PAIR_PLACE });
            }
            read_log(alloc, disk)
        }
        Front::Blank { zeroed: _ } => Err(StoreFault::BadImage { at: 0 }),
        Front::HalfOpen { pair: _ } => Err(StoreFault::BadImage { at: 0 }),
        Front::Bad { at } => Err(StoreFault::BadImage { at }),
    }
}
