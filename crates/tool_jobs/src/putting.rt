//! Puts a text into the sink, one call a text. The promise: it was put, or the sink failed and has
//! a beginning of it; each status by its cause.
ghost use Rattle.std.specs.Prelude.{◌≡◌, ◌≤◌};
ghost use Rattle.report_text.specs.Faults.{accepted_text, bad_image_text, fault_text, unbuilt_text};
ghost use Rattle.report_text.specs.Faults.{wrong_pair_text};
ghost use Rattle.tool_jobs.specs.Outside.{stream};
ghost use Rattle.tool_jobs.specs.Putting.{MakesAndPuts, Puts};

use crate::ended::{ANSWERED, IMAGE_REFUSED, OUT_OF_MEMORY, REFUSED, SINK_FAILED};
use obj_model::Pool;
use report_text::{Text, put_accepted, put_bad_image, put_fault, put_unbuilt, put_wrong_pair};
use script_lang::Cause;
use std::alloc::Global;
use tier_outside::Sink;

/// Puts one text. The status is the one that is due where the sink takes it.
pub fn tell<K: Sink>(text: &[u8], due: u8, out: &mut K) -> u8
    ensures told { Puts text.now due (stream K.held K.faults out.old)
        (stream K.held K.faults out.new) result }
    ensures later { K.faults out.old ≤ K.faults out.new }
{
    match out.put(text) {
        Ok(()) => due,
        Err(_) => SINK_FAILED,
    }
}

/// Puts the fault of a script.
pub fn tell_fault<K: Sink>(alloc: Global, line: u32, cause: Cause, out: &mut K) -> u8
    ensures told { MakesAndPuts (fault_text line cause) 4 (stream K.held K.faults out.old)
        (stream K.held K.faults out.new) result }
    ensures later { K.faults out.old ≤ K.faults out.new }
{
    let mut text = Text::new(alloc);
    if put_fault(&mut text, line, &cause).is_err() {
        return OUT_OF_MEMORY;
    }
    tell(text.as_slice(), REFUSED, out)
}

/// Puts that the verb of a line is not built yet.
pub fn tell_unbuilt<K: Sink>(alloc: Global, line: u32, out: &mut K) -> u8
    ensures told { MakesAndPuts (unbuilt_text line) 4 (stream K.held K.faults out.old)
        (stream K.held K.faults out.new) result }
    ensures later { K.faults out.old ≤ K.faults out.new }
{
    let mut text = Text::new(alloc);
    if put_unbuilt(&mut text, line).is_err() {
        return OUT_OF_MEMORY;
    }
    tell(text.as_slice(), REFUSED, out)
}

/// Puts that a script is accepted, with so many lines.
pub fn tell_accepted<K: Sink>(alloc: Global, lines: u64, out: &mut K) -> u8
    ensures told { MakesAndPuts (accepted_text lines) 0 (stream K.held K.faults out.old)
        (stream K.held K.faults out.new) result }
    ensures later { K.faults out.old ≤ K.faults out.new }
{
    let mut text = Text::new(alloc);
    if put_accepted(&mut text, lines).is_err() {
        return OUT_OF_MEMORY;
    }
    tell(text.as_slice(), ANSWERED, out)
}

/// Puts that the disk of a group's pool holds no log of that pool.
pub fn tell_bad_image<K: Sink>(alloc: Global, pool: Pool, group: u32, at: u64, out: &mut K) -> u8
    ensures told { MakesAndPuts (bad_image_text pool group at) 5
        (stream K.held K.faults out.old) (stream K.held K.faults out.new) result }
    ensures later { K.faults out.old ≤ K.faults out.new }
{
    let mut text = Text::new(alloc);
    if put_bad_image(&mut text, pool, group, at).is_err() {
        return OUT_OF_MEMORY;
    }
    tell(text.as_slice(), IMAGE_REFUSED, out)
}

/// Puts that the disk of a group's pool holds the log of another pair than the one wanted.
pub fn tell_wrong_pair<K: Sink>(
    alloc: Global,
    pool: Pool,
    group: u32,
    found: u64,
    want: u64,
    out: &mut K,
) -> u8
    ensures told { MakesAndPuts (wrong_pair_text pool group found want) 5
        (stream K.held K.faults out.old) (stream K.held K.faults out.new) result }
    ensures later { K.faults out.old ≤ K.faults out.new }
{
    let mut text = Text::new(alloc);
    if put_wrong_pair(&mut text, pool, group, found, want).is_err() {
        return OUT_OF_MEMORY;
    }
    tell(text.as_slice(), IMAGE_REFUSED, out)
}
