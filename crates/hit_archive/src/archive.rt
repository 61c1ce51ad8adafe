//! The current hit set and the archives before it.
ghost use Rattle.std.specs.Prelude.{◌≡◌, ◌∷◌, take, IfOk, OnOk, OnErr};
ghost use Rattle.hit_archive.specs.Archives.{started, is_due, touched, touch_of, recency_met, temperature};

use crate::sets::{WHOLE, all_contain, sum_of_grades};
use hit_sets::{HitKind, HitSet};
use obj_model::{Name, NoMemory};
use std::alloc::Global;
use std::marker::Model;
use std::mem;

/// What a touch tells.
#[derive(Clone, Copy, Debug, PartialEq, Eq)]
pub struct Touch {
    /// The current set contained the name, after a set that was due had been sealed.
    pub was_in: bool,
    /// The current set was sealed, and a new one began.
    pub sealed: bool,
}

/// The current hit set, and the newest of the sets before it.
#[derive(Drop)]
pub struct HitArchive {
    kind: HitKind,
    count: u32,
    period: u64,
    current: HitSet,
    // newest first
    archives: Vec<HitSet>,
}

impl Model for HitArchive {
    ghost use Rattle.std.specs.Prelude.{◌≤◌, length};
    ghost use Rattle.hit_archive.specs.Archives.{Archive};

    ghost Value = { Archive };

    ghost view = { λ a. record {
      kind = a.kind;
      count = a.count;
      period = a.period;
      current = a.current;
      archives = a.archives.items;
    } };

    ghost invariant = { λ a. length a.archives.items ≤ a.count };
}

impl HitArchive {
    /// The empty set that begins at `now`, before which there is none. `count` archives are kept;
    /// 0 is for no hit sets at all. A set counts for `period` seconds.
    pub fn new(
        alloc: Global,
        kind: HitKind,
        count: u32,
        period: u64,
        now: u64,
    ) -> Result<HitArchive, NoMemory>
        ensures { IfOk result (λ a. a ≡ started kind count period now) }
    {
        Ok(HitArchive {
            kind,
            count,
            period,
            current: HitSet::new(alloc, kind, now)?,
            archives: Vec::new(alloc),
        })
    }

    // Whether the current set is to be sealed.
    fn is_due(&self, now: u64) -> bool
        ensures { result ≡ is_due self.now now }
    {
        let start = self.current.start();
        (start <= now && self.period <= now - start) || self.current.is_full()
    }

    // Makes the current set the newest archive, and this one the current set.
    fn replace_current(&mut self, fresh: HitSet) -> Result<(), NoMemory>
        ensures done { OnOk result (self.new ≡ record self.old {
          current = fresh;
          archives = take self.old.count (self.old.current ∷ self.old.archives);
        }) }
        ensures refused { OnErr result (self.new ≡ self.old) }
    {
        self.archives.insert(0, fresh)?;
        mem::swap(&mut self.current, &mut self.archives[0]);
        self.archives.truncate(self.count as usize);
        Ok(())
    }

    /// Notes that a name was asked for at `now`, which is no moment before those of earlier calls.
    ///
    /// Where the period of the current set is over or it is full, it becomes the newest archive,
    /// archives beyond the count are dropped, and an empty set starts at `now`. Then the name is
    /// inserted. With a count of 0 nothing happens. Without memory nothing changes.
    pub fn touch(&mut self, name: &Name, now: u64) -> Result<Touch, NoMemory>
        ensures told { IfOk result (λ t. t ≡ touch_of self.old name.now now) }
        ensures done { OnOk result (self.new ≡ touched self.old name.now now) }
        ensures refused { OnErr result (self.new ≡ self.old) }
    {
        if self.count == 0 {
            return Ok(Touch {
                was_in: false,
                sealed: false,
            });
        }
        if !self.is_due(now) {
            let new = self.current.insert(name)?;
            return Ok(Touch {
                was_in: !new,
                sealed: false,
            });
        }
        let mut fresh = HitSet::new(*self.archives.allocator(), self.kind, now)?;
        let new = fresh.insert(name)?;
        self.replace_current(fresh)?;
        Ok(Touch {
            was_in: !new,
            sealed: true,
        })
    }

    /// Whether the name is recent enough for a promotion that asks for recency `r`: 0 always; else
    /// where the name was in the current set before it was touched, and is in each of the `r - 1`
    /// newest archives, which all have to be there.
    pub fn recency_met(&self, name: &Name, was_in: bool, r: u32) -> bool
        ensures { result ≡ recency_met self.now name.now was_in r }
    {
        if r == 0 {
            return true;
        }
        let others = (r - 1) as usize;
        if !was_in || self.archives.len() < others {
            return false;
        }
        all_contain(&self.archives[..others], name)
    }

    /// How much the name was asked for: 1,000,000 where the current set contains it, and for each
    /// of the `last_n` newest archives that contains it a part, which for the newest is 1,000,000
    /// without `decay` hundredths of it, and for each older one the part before it, diminished in
    /// the same way and rounded down.
    pub fn temperature(&self, name: &Name, last_n: u32, decay: u32) -> u64
        ensures { result ≡ temperature self.now name.now last_n decay }
    {
        let newest = self.archives.len().min(last_n as usize);
        let past = sum_of_grades(&self.archives[..newest], name, decay);
        if self.current.contains(name) {
            WHOLE + past
        } else {
            past
        }
    }
}
