//! Where bytes come from. The promise: a fill gives the next bytes, nothing only at the end, and a
//! fault only where the count of faults rose.

ghost use Rattle.std.specs.Prelude.{List, ℕ, Option};
ghost use Rattle.std.specs.Io.{ReadsAtMost};
ghost use Rattle.tier_outside.specs.Causes.{HasCause};
ghost use Rattle.tier_outside.specs.Streams.{Gives, EndsAtEnd};

/// A source failed in this call.
#[derive(Clone, Copy, Debug, PartialEq, Eq)]
pub struct SourceFault;

/// A source of bytes.
pub trait Source {
    /// The bytes that are left, where it tells them.
    ghost left: { Self → Option (List ℕ) };

    /// How many faults there were so far.
    ghost faults: { Self → ℕ };

    /// Puts the next bytes at the front of `buf`, and answers how many these are: 0 where `buf`
    /// has room only at the end of the input. What stands in `buf` behind them is not fixed.
    ///
    /// # Errors
    ///
    /// Where the source failed; the count of faults then rose, and nothing was lost.
    fn fill(&mut self, buf: &mut [u8]) -> Result<usize, SourceFault>
        ensures bound { ReadsAtMost result buf.new }
        ensures bytes { Gives (left self.old) (left self.new) buf.new result }
        ensures end { EndsAtEnd (left self.old) buf.new result }
        ensures cause { HasCause (faults self.old) (faults self.new) result };
}
