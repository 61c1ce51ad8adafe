//! The job `gen`: puts a generated script.
ghost use Rattle.std.specs.Prelude.{◌≡◌, ◌≤◌};
ghost use Rattle.load_gen.specs.Script.{script_of};
ghost use Rattle.tool_jobs.specs.Outside.{stream};
ghost use Rattle.tool_jobs.specs.Putting.{MakesAndPuts, Puts};

use crate::ended::{ANSWERED, OUT_OF_MEMORY, SINK_FAILED};
use load_gen::load_script;
use std::alloc::Global;
use tier_outside::Sink;

// The bytes that one call of the sink is handed.
const PIECE: usize = 65_536;

/// Puts the generated script of so many lines, piece by piece. It is held once.
pub fn generate<K: Sink>(alloc: Global, count: u32, start: u64, out: &mut K) -> u8
    ensures told { MakesAndPuts (script_of count start) 0 (stream K.held K.faults out.old)
        (stream K.held K.faults out.new) result }
    ensures later { K.faults out.old ≤ K.faults out.new }
{
    match load_script(alloc, count, start) {
        Ok(script) => put_pieces(script.as_slice(), out),
        Err(_) => OUT_OF_MEMORY,
    }
}

// Puts a text in pieces.
fn put_pieces<K: Sink>(text: &[u8], out: &mut K) -> u8
    ensures told { Puts text.now 0 (stream K.held K.faults out.old)
        (stream K.held K.faults out.new) result }
    ensures later { K.faults out.old ≤ K.faults out.new }
{
    let mut rest = text;
    while !rest.is_empty() {
        let (piece, others) = rest.split_at(PIECE.min(rest.len()));
        match out.put(piece) {
            Ok(()) => {}
            Err(_) => return SINK_FAILED,
        }
        rest = others;
    }
    ANSWERED
}
