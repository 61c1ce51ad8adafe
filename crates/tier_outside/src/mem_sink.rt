//! A sink in memory that fails at listed calls, for tests. The promise: what each call does is
//! fixed by the piece, the list, and the number of the call, but for want of memory.

ghost use Rattle.std.specs.Prelude.{◌≡◌, ◌<◌, ◌++◌, List, ℕ, Option, Some, MatchResult, length, false, true, [], OnErr, OnOk};
ghost use Rattle.tier_outside.specs.Causes.{HasCause, one_more, is_listed};
ghost use Rattle.tier_outside.specs.Streams.{Puts, SinkState};

use crate::calls::Calls;
use crate::sink::{Sink, SinkFault};
use std::marker::Model;

/// A sink that keeps its bytes in memory. It fails at the calls of the listed numbers, and else
/// only for want of memory in a call that grows it.
#[derive(Drop)]
pub struct MemSink {
    bytes: Vec<u8>,
    calls: Calls,
}

impl Model for MemSink {
    ghost use Rattle.tier_outside.specs.Streams.{SinkState};

    ghost Value = { SinkState };

    ghost view = { λ s. record {
      held = s.bytes.items;
      fails = s.calls.fails.items;
      calls = s.calls.made;
      faults = s.calls.faults;
    } };
}

impl MemSink {
    /// An empty sink that fails at the calls whose numbers are in `fails`, the first call being 1.
    /// The order of the numbers does not matter.
    pub fn new(fails: Vec<u64>) -> MemSink
        ensures { result ≡ record { held = []; fails = fails.items; calls = 0; faults = 0 } }
    {
        MemSink {
            bytes: Vec::new(*fails.allocator()),
            calls: Calls::new(fails),
        }
    }

    /// The bytes that it holds.
    pub fn bytes(&self) -> &[u8]
        ensures { result.now ≡ self.now.held }
    {
        self.bytes.as_slice()
    }

    /// How many calls there were; it stays at `u64::MAX`.
    pub fn calls(&self) -> u64
        ensures { result ≡ self.now.calls }
    {
        self.calls.made()
    }

    /// How many calls failed; it stays at `u64::MAX`.
    pub fn faults(&self) -> u64
        ensures { result ≡ self.now.faults }
    {
        self.calls.faults()
    }
}

impl Sink for MemSink {
    ghost held = { λ s. Some s.held };

    ghost faults = { λ s. s.faults };

    /// A failed call takes nothing.
    fn put(&mut self, piece: &[u8]) -> Result<(), SinkFault>
        ensures bytes { Puts (Some self.old.held) (Some self.new.held) piece.now result }
        ensures cause { HasCause self.old.faults self.new.faults result }
        ensures listed { OnOk result (is_listed (one_more self.old.calls) self.old.fails ≡ false) }
        ensures unlisted { OnErr result (is_listed (one_more self.old.calls) self.old.fails ≡ false
            → 0 < length piece.now) }
        ensures state { MatchResult result
            (λ _. self.new ≡ record self.old {
              held = self.old.held ++ piece.now;
              calls = one_more self.old.calls;
            })
            (λ _. self.new ≡ record self.old {
              calls = one_more self.old.calls;
              faults = one_more self.old.faults;
            }) }
    {
        if self.calls.next_fails() {
            return Err(SinkFault);
        }
        if self.bytes.extend_from_slice(piece).is_err() {
            self.calls.add_fault();
            return Err(SinkFault);
        }
        Ok(())
    }
}
