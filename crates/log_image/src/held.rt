//! Reading the map that a log holds.
ghost use Rattle.std.specs.Prelude.{◌≡◌, ◌≤◌, ◌+◌, slice_index, length};
ghost use Rattle.tier_outside.specs.Causes.{Rose};
ghost use Rattle.tier_outside.specs.DiskMoments.{Now};
ghost use Rattle.log_image.specs.Calls.{ReadEnds};
ghost use Rattle.log_image.specs.Steps.Rebuilding.{RebuildEnds, ReplayEnds, told};

use crate::head::LOG_LIMIT;
use gate_journal::{Journal, walk};
use obj_model::{Bytes, Items};
use pool_map::PoolMap;
use rec_codec::read_txn;
use std::alloc::Global;
use store_face::StoreFault;
use tier_outside::Disk;

// The bytes of a record in front of its payload: its gate and its length.
const RECORD_HEAD: u64 = 5;

// Carries out the transaction that a payload is. The payload stands at this offset.
fn replay(alloc: Global, map: &mut PoolMap, payload: &[u8], at: u64) -> Result<(), StoreFault>
    ensures { ReplayEnds payload.now at map.old map.new result }
{
    match read_txn(alloc, payload)? {
        Some(changes) => {
            map.prepare(changes)?;
            map.apply();
            Ok(())
        }
        None => Err(StoreFault::BadImage { at }),
    }
}

// The gate behind the record of a payload at a gate. An offset that 64 bits do not hold is told as
// their last number: only a disk that gives other bytes at each reading has one.
fn behind(gate: u64, payload: &[u8]) -> u64
    ensures { result ≡ told (gate + 5 + length payload.now) }
{
    gate.saturating_add(RECORD_HEAD)
        .saturating_add(payload.len() as u64)
}

// The map that the payloads behind the first make. Each is dropped when it was carried out.
fn rebuild(alloc: Global, payloads: Items<Bytes>) -> Result<PoolMap, StoreFault>
    ensures { RebuildEnds payloads result }
{
    let mut rest = payloads.into_vec().into_iter();
    let Some(head) = rest.next() else {
        return Err(StoreFault::BadImage { at: 0 });
    };
    let mut map = PoolMap::new(alloc);
    let mut gate = behind(0, head.as_slice());
    for payload in rest {
        let at = gate.saturating_add(RECORD_HEAD);
        replay(alloc, &mut map, payload.as_slice(), at)?;
        gate = behind(gate, payload.as_slice());
    }
    Ok(map)
}

/// Reads a log whose head was looked at, in one pass: where its journal stands, and its map. It
/// writes nothing.
///
/// `BadImage` tells a gate that breaks the journal; or else, of the records behind the head, the
/// payload of the first that is no transaction. Over a disk that tells nothing and whose first gate
/// is not open after all, it tells that gate, 0.
pub fn read_log<D: Disk>(alloc: Global, disk: &mut D) -> Result<(Journal, PoolMap), StoreFault>
    requires opened { Now (D.moments disk.old) (λ d. slice_index d.content 0 ≡ 1) }
    ensures read { ReadEnds (D.moments disk.old)
        (Rose (D.faults disk.old) (D.faults disk.new)) result }
    ensures same { D.moments disk.new ≡ D.moments disk.old }
    ensures later { D.faults disk.old ≤ D.faults disk.new }
{
    let (journal, payloads) = walk(alloc, disk, 0, LOG_LIMIT)?;
    let map = rebuild(alloc, payloads)?;
    Ok((journal, map))
}
