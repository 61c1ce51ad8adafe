//! Where bytes go. The promise: a put takes the whole piece or fails with a front of it taken, and
//! a fault comes only where the count of faults rose.

ghost use Rattle.std.specs.Prelude.{List, ℕ, Option};
ghost use Rattle.tier_outside.specs.Causes.{HasCause};
ghost use Rattle.tier_outside.specs.Streams.{Puts};

/// A sink failed in this call.
#[derive(Clone, Copy, Debug, PartialEq, Eq)]
pub struct SinkFault;

/// A sink for bytes.
pub trait Sink {
    /// The bytes that it holds, where it tells them.
    ghost held: { Self → Option (List ℕ) };

    /// How many faults there were so far.
    ghost faults: { Self → ℕ };

    /// Puts the whole piece behind what the sink holds.
    ///
    /// # Errors
    ///
    /// Where the sink failed; the count of faults then rose, and a front of the piece was taken,
    /// which may be none or all of it.
    fn put(&mut self, piece: &[u8]) -> Result<(), SinkFault>
        ensures bytes { Puts (held self.old) (held self.new) piece.now result }
        ensures cause { HasCause (faults self.old) (faults self.new) result };
}
