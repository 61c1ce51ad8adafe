//! A source in memory that fails at listed calls, for tests. The promise: what each call does is
//! fixed by the bytes that are left, the list, and the number of the call.

ghost use Rattle.std.specs.Prelude.{◌≡◌, ◌-◌, List, ℕ, Option, Some, MatchResult, length, take, drop, min, false, true, [], vec_len, OnOk, OnErr, IfOk};
ghost use Rattle.std.specs.Io.{ReadsAtMost};
ghost use Rattle.tier_outside.specs.Causes.{HasCause, one_more, is_listed};
ghost use Rattle.tier_outside.specs.Streams.{Gives, EndsAtEnd, FailsWhereListed, SourceState};

use crate::calls::Calls;
use crate::source::{Source, SourceFault};
use std::marker::Model;

/// Bytes in memory, given in order. It fails at the calls of the listed numbers and at no other.
#[derive(Drop)]
pub struct MemSource {
    bytes: Vec<u8>,
    position: usize,
    calls: Calls,
}

impl Model for MemSource {
    ghost use Rattle.std.specs.Prelude.{drop, ◌≤◌, vec_len};
    ghost use Rattle.tier_outside.specs.Streams.{SourceState};

    ghost Value = { SourceState };

    ghost view = { λ s. record {
      left = drop s.position s.bytes.items;
      fails = s.calls.fails.items;
      calls = s.calls.made;
      faults = s.calls.faults;
    } };

    ghost invariant = { λ s. s.position ≤ vec_len s.bytes };
}

impl MemSource {
    /// A source of these bytes that fails at the calls whose numbers are in `fails`, the first
    /// call being 1. The order of the numbers does not matter.
    pub fn new(bytes: Vec<u8>, fails: Vec<u64>) -> MemSource
        ensures { result ≡ record {
          left = bytes.items;
          fails = fails.items;
          calls = 0;
          faults = 0;
        } }
    {
        MemSource {
            bytes,
            position: 0,
            calls: Calls::new(fails),
        }
    }

    /// The bytes that are left.
    pub fn left(&self) -> &[u8]
        ensures { result.now ≡ self.now.left }
    {
        let (_, rest) = self.bytes.as_slice().split_at(self.position);
        rest
    }

    /// How many calls there were; it stays at `u64::MAX`.
    pub fn calls(&self) -> u64
        ensures { result ≡ self.now.calls }
    {
        self.calls.made()
    }

    /// How many calls failed; it stays at `u64::MAX`.
    pub fn faults(&self) -> u64
        ensures { result ≡ self.now.faults }
    {
        self.calls.faults()
    }
}

#[tactic(auto, using(crate::proofs::Streams::split_front))]
impl Source for MemSource {
    ghost left = { λ s. Some s.left };

    ghost faults = { λ s. s.faults };

    /// Gives as many bytes as are left and fit; the rest of the buffer stays.
    fn fill(&mut self, buf: &mut [u8]) -> Result<usize, SourceFault>
        ensures bound { ReadsAtMost result buf.new }
        ensures bytes { Gives (Some self.old.left) (Some self.new.left) buf.new result }
        ensures end { EndsAtEnd (Some self.old.left) buf.new result }
        ensures cause { HasCause self.old.faults self.new.faults result }
        ensures listed { FailsWhereListed self.old.fails self.old.calls result }
        ensures count { IfOk result (λ count. count ≡ min (length buf.old) (length self.old.left)) }
        ensures state { MatchResult result
            (λ count. self.new ≡ record self.old {
              left = drop count self.old.left;
              calls = one_more self.old.calls;
            })
            (λ _. self.new ≡ record self.old {
              calls = one_more self.old.calls;
              faults = one_more self.old.faults;
            }) }
        ensures rest { MatchResult result (λ count. drop count buf.new ≡ drop count buf.old)
            (λ _. buf.new ≡ buf.old) }
    {
        if self.calls.next_fails() {
            return Err(SourceFault);
        }
        let count = copy_front(self.left(), buf);
        self.position += count;
        Ok(count)
    }
}

// The front of the bytes, as much as fits.
fn copy_front(bytes: &[u8], buf: &mut [u8]) -> usize
    ensures count { result ≡ min (length buf.old) (length bytes.now) }
    ensures front { take result buf.new ≡ take result bytes.now }
    ensures rest { drop result buf.new ≡ drop result buf.old }
{
    let count = bytes.len().min(buf.len());
    buf[..count].copy_from_slice(&bytes[..count]);
    count
}
