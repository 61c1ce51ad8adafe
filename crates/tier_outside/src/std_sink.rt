//! A writer of std as a sink. The promise: it puts what it is given into the writer, and tells what
//! the writer tells.

ghost use Rattle.std.specs.Prelude.{◌≡◌, ◌≤◌, List, ℕ, Option, IfSome, length};
ghost use Rattle.std.specs.Io.{WritesAtMost};
ghost use Rattle.std.specs.Io.KnownBytes.{WriteAppends};
ghost use Rattle.tier_outside.specs.Causes.{HasCause};
ghost use Rattle.tier_outside.specs.Streams.{Writes, told_since, StreamState};

use crate::sink::{Sink, SinkFault};
use std::io::{ErrorKind, Write};
use std::marker::Model;
use std::snapshot::Snapshot;

/// A writer of std as a sink. Interrupted writes are gone on with; any other error, and a writer
/// that takes nothing of what is left of a piece, is a fault. It does not flush the writer.
#[derive(Drop)]
pub struct StdSink<W: Write> {
    inner: W,
    // The writer at the start, for clauses alone: a writer that tells nothing may begin to tell,
    // and the sink does not.
    start: Snapshot<W>,
    faults: u64,
}

impl<W: Write> Model for StdSink<W> {
    ghost use Rattle.std.specs.Prelude.{IfSome, IsSome};
    ghost use Rattle.tier_outside.specs.Streams.{told_since, StreamState};

    ghost Value = { StreamState };

    ghost view = { λ s. record {
      bytes = told_since (W.contents s.start.value) (W.contents s.inner);
      faults = s.faults;
    } };

    ghost invariant = { λ s. IfSome (W.contents s.start.value) (λ _. IsSome (W.contents s.inner)) };
}

impl<W: Write> StdSink<W> {
    /// The sink that puts into this writer.
    pub fn new(inner: W) -> StdSink<W>
        ensures { result ≡ record { bytes = W.contents inner; faults = 0 } }
    {
        StdSink {
            start: Snapshot::of(&inner),
            inner,
            faults: 0,
        }
    }

    /// How many faults there were; it stays at `u64::MAX`.
    pub fn faults(&self) -> u64
        ensures { result ≡ self.now.faults }
    {
        self.faults
    }

    /// The writer.
    pub fn into_inner(self) -> W
        ensures { IfSome self.bytes (λ bytes. W.contents result ≡ Some bytes) }
    {
        self.inner
    }
}

impl<W: Write> Sink for StdSink<W> {
    ghost held = { λ s. s.bytes };

    ghost faults = { λ s. s.faults };

    fn put(&mut self, piece: &[u8]) -> Result<(), SinkFault> {
        match write_piece(&mut self.inner, piece) {
            Ok(()) => Ok(()),
            Err(fault) => {
                self.faults = self.faults.saturating_add(1);
                Err(fault)
            }
        }
    }
}

// Writes the whole piece, or fails with a front of it written.
#[tactic(auto, using(crate::proofs::Streams::appends_more))]
fn write_piece<W: Write>(writer: &mut W, piece: &[u8]) -> Result<(), SinkFault>
    ensures { Writes (W.contents writer.old) (W.contents writer.new) piece.now result }
{
    let mut done = 0;
    while done < piece.len() {
        let (_, rest) = piece.split_at(done);
        match write_on(writer, rest) {
            Ok(0) => return Err(SinkFault),
            Ok(count) => done += count,
            Err(fault) => return Err(fault),
        }
    }
    Ok(())
}

// Writes, and writes again after an interruption.
fn write_on<W: Write>(writer: &mut W, piece: &[u8]) -> Result<usize, SinkFault>
    ensures bound { WritesAtMost result piece.now }
    ensures bytes { WriteAppends (W.contents writer.old) (W.contents writer.new) result piece.now }
{
    for _ in 0..u64::MAX {
        match writer.write(piece) {
            Ok(count) => return Ok(count),
            Err(error) => {
                if error.kind() != ErrorKind::Interrupted {
                    return Err(SinkFault);
                }
            }
        }
    }
    Err(SinkFault)
}
