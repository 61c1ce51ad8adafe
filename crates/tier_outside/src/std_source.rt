//! A reader of std as a source. The promise: it gives what the reader gives and tells what the
//! reader tells.

ghost use Rattle.std.specs.Prelude.{◌≡◌, ◌≤◌, List, ℕ, Option, IfSome, length};
ghost use Rattle.std.specs.Io.{ReadsAtMost};
ghost use Rattle.std.specs.Io.KnownBytes.{ReadConsumes};
ghost use Rattle.tier_outside.specs.Causes.{HasCause};
ghost use Rattle.tier_outside.specs.Streams.{told_since, StreamState};

use crate::source::{Source, SourceFault};
use std::io::{ErrorKind, Read};
use std::marker::Model;
use std::snapshot::Snapshot;

/// A reader of std as a source. Interrupted reads are gone on with, any other error is a fault.
#[derive(Drop)]
pub struct StdSource<R: Read> {
    inner: R,
    // The reader at the start, for clauses alone: a reader that tells nothing may begin to tell,
    // and the source does not.
    start: Snapshot<R>,
    faults: u64,
}

impl<R: Read> Model for StdSource<R> {
    ghost use Rattle.std.specs.Prelude.{IfSome, IsSome};
    ghost use Rattle.tier_outside.specs.Streams.{told_since, StreamState};

    ghost Value = { StreamState };

    ghost view = { λ s. record {
      bytes = told_since (R.remaining s.start.value) (R.remaining s.inner);
      faults = s.faults;
    } };

    ghost invariant = { λ s.
        IfSome (R.remaining s.start.value) (λ _. IsSome (R.remaining s.inner)) };
}

impl<R: Read> StdSource<R> {
    /// The source that gives what this reader gives from here on.
    pub fn new(inner: R) -> StdSource<R>
        ensures { result ≡ record { bytes = R.remaining inner; faults = 0 } }
    {
        StdSource {
            start: Snapshot::of(&inner),
            inner,
            faults: 0,
        }
    }

    /// How many faults there were; it stays at `u64::MAX`.
    pub fn faults(&self) -> u64
        ensures { result ≡ self.now.faults }
    {
        self.faults
    }
}

#[tactic(auto, using(crate::proofs::Streams::ends_at_end))]
impl<R: Read> Source for StdSource<R> {
    ghost left = { λ s. s.bytes };

    ghost faults = { λ s. s.faults };

    fn fill(&mut self, buf: &mut [u8]) -> Result<usize, SourceFault> {
        match read_on(&mut self.inner, buf) {
            Ok(count) => Ok(count),
            Err(fault) => {
                self.faults = self.faults.saturating_add(1);
                Err(fault)
            }
        }
    }
}

// Reads, and reads again after an interruption.
fn read_on<R: Read>(reader: &mut R, buf: &mut [u8]) -> Result<usize, SourceFault>
    ensures bound { ReadsAtMost result buf.new }
    ensures bytes { ReadConsumes (R.remaining reader.old) (R.remaining reader.new) result buf.new }
{
    for _ in 0..u64::MAX {
        match reader.read(buf) {
            Ok(count) => return Ok(count),
            Err(error) => {
                if error.kind() != ErrorKind::Interrupted {
                    return Err(SourceFault);
                }
            }
        }
    }
    Err(SourceFault)
}
