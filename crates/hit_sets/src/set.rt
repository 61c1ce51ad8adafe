//! Hit sets of any kind.
ghost use Rattle.std.specs.Prelude.{◌≡◌, IfOk, OnOk, OnErr, IsOk, not};
ghost use Rattle.hit_sets.specs.Sets.{empty, contains, inserted, full_at, is_full};
ghost use Rattle.hit_sets.specs.Steps.{IsBloom};
ghost use Rattle.hit_sets.specs.Marks.{IsUnmarked, Inserts};

use crate::bloom::BloomHits;
use crate::explicit::{HashHits, NameHits};
use crate::kind::HitKind;
use obj_model::{Name, NoMemory};
use std::alloc::Global;
use std::marker::Model;

/// After how many insertions that changed it a set is full.
pub const FULL: u32 = 4_096;

// What a set keeps, by its kind.
#[derive(Drop)]
pub(crate) enum Marks {
    Hashes(HashHits),
    Names(NameHits),
    Bits(BloomHits),
}

/// The names that were asked for since a moment.
#[derive(Drop)]
pub struct HitSet {
    start: u64,
    // how many insertions changed the set, up to the number that makes it full
    changes: u32,
    marks: Marks,
}

impl Model for HitSet {
    ghost use Rattle.std.specs.Prelude.{◌≡◌, min, length};
    ghost use Rattle.hit_sets.specs.Sets.{Hits, full_at};
    ghost use Rattle.hit_sets.specs.Marks.{kind_of, marked_names};

    ghost Value = { Hits };

    ghost view = { λ s. record {
      kind = kind_of s.marks;
      start = s.start;
      names = marked_names s.marks;
    } };

    ghost invariant = { λ s. s.changes ≡ min (length (marked_names s.marks)) full_at };
}

// Nothing, of a kind.
fn no_marks(alloc: Global, kind: HitKind) -> Result<Marks, NoMemory>
    ensures { IfOk result (λ m. IsUnmarked kind m) }
{
    match kind {
        HitKind::ExplicitHash => Ok(Marks::Hashes(HashHits::new(alloc))),
        HitKind::ExplicitObject => Ok(Marks::Names(NameHits::new(alloc))),
        HitKind::Bloom(fpp) => Ok(Marks::Bits(BloomHits::new(alloc, fpp)?)),
    }
}

// Inserts a name, and tells whether the marks changed.
fn insert_mark(marks: &mut Marks, name: &Name) -> Result<bool, NoMemory>
    ensures { Inserts marks.old name.now marks.new result }
{
    match marks {
        Marks::Hashes(hits) => hits.insert(name),
        Marks::Names(hits) => hits.insert(name),
        Marks::Bits(hits) => Ok(hits.insert(name)),
    }
}

impl HitSet {
    /// The set of this kind that begins at `start`. All bits of a Bloom set are made here.
    pub fn new(alloc: Global, kind: HitKind, start: u64) -> Result<HitSet, NoMemory>
        ensures { IfOk result (λ s. s ≡ empty kind start) }
    {
        Ok(HitSet {
            start,
            changes: 0,
            marks: no_marks(alloc, kind)?,
        })
    }

    /// The moment from which the set counts.
    pub fn start(&self) -> u64
        ensures { result ≡ self.now.start }
    {
        self.start
    }

    /// Whether the set contains a name. A Bloom set may contain names that were never inserted.
    pub fn contains(&self, name: &Name) -> bool
        ensures { result ≡ contains self.now name.now }
    {
        match &self.marks {
            Marks::Hashes(hits) => hits.contains(name),
            Marks::Names(hits) => hits.contains(name),
            Marks::Bits(hits) => hits.contains(name),
        }
    }

    /// Inserts a name, and tells whether this changed the set. Without memory nothing changes; a
    /// Bloom set takes none.
    pub fn insert(&mut self, name: &Name) -> Result<bool, NoMemory>
        ensures changed { IfOk result (λ new. new ≡ not (contains self.old name.now)) }
        ensures done { OnOk result (self.new ≡ inserted self.old name.now) }
        ensures refused { OnErr result (self.new ≡ self.old) }
        ensures bloom { IsBloom self.old.kind → IsOk result }
    {
        let new = insert_mark(&mut self.marks, name)?;
        if new && self.changes < FULL {
            self.changes += 1;
        }
        Ok(new)
    }

    /// Whether 4,096 insertions have changed the set.
    pub fn is_full(&self) -> bool
        ensures { result ≡ is_full self.now }
    {
        self.changes == FULL
    }
}
