//! The job `check`: a script that is read alone. No disk is touched.
ghost use Rattle.std.specs.Prelude.{◌≤◌};
ghost use Rattle.tool_jobs.specs.Outside.{stream};
ghost use Rattle.tool_jobs.specs.Jobs.{Checks, ReadsAndChecks};

use crate::ended::{OUT_OF_MEMORY, SOURCE_FAILED};
use crate::putting::{tell_accepted, tell_fault};
use crate::reading::{Unread, read_whole};
use script_lang::{ScriptFault, read_script};
use std::alloc::Global;
use tier_outside::{Sink, Source};

/// Reads a script from its source, and puts the number of its lines that are neither blank nor
/// comments, or its fault.
pub fn check<S: Source, K: Sink>(alloc: Global, script: &mut S, out: &mut K) -> u8
    ensures ends { ReadsAndChecks (stream S.left S.faults script.old)
        (stream S.left S.faults script.new) (stream K.held K.faults out.old)
        (stream K.held K.faults out.new) result }
    ensures source_later { S.faults script.old ≤ S.faults script.new }
    ensures sink_later { K.faults out.old ≤ K.faults out.new }
{
    match read_whole(alloc, script) {
        Ok(bytes) => check_script(alloc, bytes.as_slice(), out),
        Err(Unread::Fault) => SOURCE_FAILED,
        Err(Unread::NoMemory) => OUT_OF_MEMORY,
    }
}

// Checks a script that was read whole.
fn check_script<K: Sink>(alloc: Global, script: &[u8], out: &mut K) -> u8
    ensures ends { Checks script.now (stream K.held K.faults out.old)
        (stream K.held K.faults out.new) result }
    ensures later { K.faults out.old ≤ K.faults out.new }
{
    match read_script(alloc, script) {
        Ok(lines) => tell_accepted(alloc, lines.len() as u64, out),
        Err(ScriptFault::Bad { line, cause }) => tell_fault(alloc, line, cause, out),
        Err(ScriptFault::NoMemory) => OUT_OF_MEMORY,
    }
}
