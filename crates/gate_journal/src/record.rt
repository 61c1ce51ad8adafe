//! The bytes of a record.
ghost use Rattle.std.specs.Prelude.{◌≡◌, ◌+◌, ◌<◌, ◌≤◌, ◌^◌, length, drop, IfOk};
ghost use Rattle.tier_outside.specs.Causes.{Rose};
ghost use Rattle.tier_outside.specs.Disk.{disk_limit};
ghost use Rattle.tier_outside.specs.DiskMoments.{Now};
ghost use Rattle.gate_journal.specs.Journals.{behind_gate};
ghost use Rattle.gate_journal.specs.Calls.{AddEnds};
ghost use Rattle.gate_journal.specs.Stands.{InRange};
ghost use Rattle.gate_journal.specs.Steps.Reading.{HeadRead, RecordRead};

use crate::Journal;
use crate::step::{CLOSED, OPEN};
use byteorder::{BigEndian, ByteOrder};
use obj_model::Bytes;
use std::alloc::{AllocError, Global};
use std::marker::Model;
use store_face::StoreFault;
use tier_outside::Disk;

/// A buffer in which a record is made: the place of its length, and memory for so many bytes of
/// payload behind it.
pub fn record_buffer(alloc: Global, size: usize) -> Result<Vec<u8>, AllocError>
    ensures { IfOk result (λ buffer. length buffer.items ≡ 4) }
{
    let mut buffer = Vec::with_capacity(alloc, size.saturating_add(5))?;
    buffer.extend_from_slice(&[0; 4])?;
    Ok(buffer)
}

// What is written behind the gate of a record: its length, its payload and a closed gate. It is
// made where the payload stands, behind the place of its length.
#[tactic(auto, using(crate::proofs::Bodies::sealed_is))]
fn sealed(buffer: Vec<u8>) -> Result<Vec<u8>, AllocError>
    requires place { 4 ≤ length buffer.items }
    requires size { length buffer.items < 2 ^ 32 + 4 }
    ensures { IfOk result (λ body. body.items ≡ behind_gate (drop 4 buffer.items)) }
{
    let mut body = buffer;
    let size = body.len() - 4;
    BigEndian::write_u32(&mut body, size as u32);
    body.push(CLOSED)?;
    Ok(body)
}

/// What is written behind the gate of the record of a payload, which is copied.
#[tactic(auto, using(crate::proofs::Bodies::payload_behind))]
pub fn record_body(alloc: Global, payload: &[u8]) -> Result<Vec<u8>, AllocError>
    requires { length payload.now < 2 ^ 32 }
    ensures { IfOk result (λ body. body.items ≡ behind_gate payload.now) }
{
    let mut buffer = record_buffer(alloc, payload.len())?;
    buffer.extend_from_slice(payload)?;
    sealed(buffer)
}

// Whether so many bytes fit behind a journal's closed gate and before its end.
fn check_space(journal: &Journal, need: u64) -> Result<(), StoreFault>
    requires in_range { InRange journal.now }
    requires small { need < 2 ^ 33 }
    ensures { AddEnds (journal.now.next + 1) need journal.now.end (Unit {0}) ⊥ result }
{
    let used = journal.next + 1;
    if journal.end < used + need {
        return Err(StoreFault::NoSpace {
            used,
            need,
            limit: journal.end,
        });
    }
    Ok(())
}

/// A record that is to be added behind a journal. Contracts see its payload.
#[derive(Debug, Drop)]
pub struct Record {
    body: Vec<u8>,
}

impl Model for Record {
    ghost use Rattle.std.specs.Prelude.{List, ℕ};
    ghost use Rattle.std.specs.Coded.{coded_ℕ, coded_list};
    ghost use Rattle.gate_journal.specs.Steps.Bodies.{IsBody, payload_of};

    ghost Value = { List ℕ };

    ghost coded = { coded_list coded_ℕ };

    ghost view = { λ r. payload_of r.body.items };

    ghost invariant = { λ r. IsBody r.body.items };
}

impl Record {
    /// Makes the record of a payload (below 2^32 bytes) for a journal. The payload is copied.
    ///
    /// `NoSpace` comes exactly where the record and the gate behind it do not fit before the
    /// journal's end: used is the offset behind its closed gate, need is the payload and 5 bytes,
    /// the limit is the end.
    pub fn new(alloc: Global, journal: &Journal, payload: &[u8]) -> Result<Record, StoreFault>
        requires in_range { InRange journal.now }
        requires size { length payload.now < 2 ^ 32 }
        ensures answer { AddEnds (journal.now.next + 1) (length payload.now + 5) journal.now.end
            (Unit {0}) ⊥ result }
        ensures payload { IfOk result (λ made. made ≡ payload.now) }
    {
        match check_space(journal, payload.len() as u64 + 5) {
            Err(fault) => Err(fault),
            Ok(()) => {
                let body = record_body(alloc, payload)?;
                Ok(Record { body })
            }
        }
    }

    /// Makes the record of the payload (below 2^32 bytes) that stands in this buffer behind the
    /// four bytes of a `record_buffer`. It is made in the buffer, and the payload is not copied
    /// where that has memory for one byte more.
    ///
    /// `NoSpace` comes as with `new`.
    pub fn of_buffer(journal: &Journal, buffer: Vec<u8>) -> Result<Record, StoreFault>
        requires in_range { InRange journal.now }
        requires place { 4 ≤ length buffer.items }
        requires size { length buffer.items < 2 ^ 32 + 4 }
        ensures answer { AddEnds (journal.now.next + 1) (length buffer.items + 1) journal.now.end
            (Unit {0}) ⊥ result }
        ensures payload { IfOk result (λ made. made ≡ drop 4 buffer.items) }
    {
        match check_space(journal, buffer.len() as u64 + 1) {
            Err(fault) => Err(fault),
            Ok(()) => {
                let body = sealed(buffer)?;
                Ok(Record { body })
            }
        }
    }

    /// What is written behind its gate.
    pub(crate) fn bytes(&self) -> &[u8]
        ensures { result.now ≡ behind_gate self.now }
    {
        self.body.as_slice()
    }
}

// The length of the payload behind an open gate, or `None` behind a closed one. Below the limit the
// payload and the gate behind it are there.
fn read_head<D: Disk>(disk: &mut D, gate: u64, limit: u64) -> Result<Option<u64>, StoreFault>
    requires small { limit ≤ disk_limit }
    requires there { Now (D.moments disk.old) (λ d. limit ≤ length d.content) }
    ensures read { HeadRead gate limit (D.moments disk.old)
        (Rose (D.faults disk.old) (D.faults disk.new)) result }
    ensures same { D.moments disk.new ≡ D.moments disk.old }
    ensures later { D.faults disk.old ≤ D.faults disk.new }
{
    if limit <= gate {
        return Err(StoreFault::BadImage { at: gate });
    }
    let mut head = [0; 5];
    let count = disk.read_at(gate, &mut head)?;
    if count == 0 {
        return Err(StoreFault::BadImage { at: gate });
    }
    if head[0] != OPEN {
        return Ok(None);
    }
    let size = BigEndian::read_u32(&head[1..]) as u64;
    if limit - gate <= 5 + size {
        return Err(StoreFault::BadImage { at: gate });
    }
    Ok(Some(size))
}

/// The payload of the record at a gate, or `None` where the gate is closed. Only bytes below the
/// limit count, all of which are there. A length is tested against the limit before there is memory
/// for it.
pub fn read_record<D: Disk>(
    alloc: Global,
    disk: &mut D,
    gate: u64,
    limit: u64,
) -> Result<Option<Bytes>, StoreFault>
    requires small { limit ≤ disk_limit }
    requires there { Now (D.moments disk.old) (λ d. limit ≤ length d.content) }
    ensures read { RecordRead gate limit (D.moments disk.old)
        (Rose (D.faults disk.old) (D.faults disk.new)) result }
    ensures same { D.moments disk.new ≡ D.moments disk.old }
    ensures later { D.faults disk.old ≤ D.faults disk.new }
{
    let Some(size) = read_head(disk, gate, limit)? else {
        return Ok(None);
    };
    let mut payload = vec![in alloc; 0; size as usize]?;
    let count = disk.read_at(gate + 5, &mut payload)?;
    if count < payload.len() {
        return Err(StoreFault::BadImage { at: gate });
    }
    Ok(Some(Bytes::from_vec(payload)))
}
