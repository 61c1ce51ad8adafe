//! How full a group's history is, and whether its numbers have come to their end.
ghost use Rattle.std.specs.Prelude.{◌≡◌, ◌↔◌, ◌≤◌, ◌<◌, ◌⊎◌, ◌+◌, IsSome, IsTrue, MatchOption};
ghost use Rattle.tier_chron.specs.Weights.{cut};
ghost use Rattle.tier_core.specs.Held.{IsFull, IsFullFor, IsFullWith, IsWorn, bytes_limit, entries_limit, held_of, keeps_line};

use crate::Group;
use obj_model::NUMBER_LIMIT;
use store_face::Store;
use tier_view::KeptFence;

/// The most entries that a history may come to have.
pub const ENTRIES_LIMIT: u64 = 1_048_576;

/// What the entries of a history weigh together where it is full, in bytes.
pub const BYTES_LIMIT: u64 = 268_435_456;

/// How many entries a full history has, and what they weigh together.
#[derive(Clone, Copy, Debug, PartialEq, Eq)]
pub struct Fullness {
    pub entries: u64,
    pub bytes: u64,
}

// Whether a Fence keeps a line, without a call.
fn keeps_line(kept: &Option<KeptFence>) -> bool
    ensures { result ≡ keeps_line kept.now }
{
    match kept {
        Some(kept) => kept.line.is_some() && kept.call.is_none(),
        None => false,
    }
}

// Whether a history of so many entries, of this weight, has no room for one call more, while so
// many are held.
fn is_full(entries: u64, held: u64, bytes: u64) -> bool
    ensures { IsTrue result
        ↔ ((entries_limit < entries + held + 3) ⊎ (bytes_limit ≤ bytes)) }
{
    entries.saturating_add(held).saturating_add(3) > ENTRIES_LIMIT || bytes >= BYTES_LIMIT
}

impl<P: Store> Group<P> {
    /// How many entries of the history are held for what is under way: three for each call in
    /// flight that has a line, for each write request that is left, and for a Fence that keeps a
    /// line without a call; one for a commit in doubt. It is a sum of running counts.
    pub fn held(&self) -> u64
        ensures { result ≡ cut (held_of self.now) }
    {
        let kept = keeps_line(&self.start.kept) as u64;
        let waiting = self.wires.left_writes().saturating_add(kept);
        let under_way = self.calls.going().saturating_add(waiting);
        under_way
            .saturating_mul(3)
            .saturating_add(self.pending.is_some() as u64)
    }

    /// Whether the history has no room for one call more that has a line, and how much it has then.
    pub fn history_full(&self) -> Option<Fullness>
        ensures { MatchOption result (IsFull self.now → ⊥) (IsFullWith self.now) }
    {
        let entries = self.history.entries();
        let bytes = self.history.bytes();
        if is_full(entries, self.held(), bytes) {
            Some(Fullness { entries, bytes })
        } else {
            None
        }
    }

    /// The same for a call on this line. Without a line there is always room.
    pub(crate) fn full_for(&self, line: Option<u32>) -> Option<Fullness>
        ensures { MatchOption result (IsFullFor line self.now → ⊥)
            (λ full. IsSome line × IsFullWith self.now full) }
    {
        match line {
            Some(_) => self.history_full(),
            None => None,
        }
    }

    /// Whether the next operation's number, or the last call's, stands at 2^62 or above it.
    pub fn is_worn(&self) -> bool
        ensures { IsTrue result ↔ IsWorn self.now }
    {
        self.start.next_opid >= NUMBER_LIMIT || self.calls.last() >= NUMBER_LIMIT
    }
}
