//! The base, entry by entry, up to a name at a time.
ghost use Rattle.std.specs.Prelude.{◌≡◌, [], true, None, OnOk};
ghost use Rattle.std.specs.Option.{option_copied};
ghost use Rattle.store_face.specs.Views.{Holds, Sound};
ghost use Rattle.pool_survey.specs.Runs.{BaseSoFar, CountsIn, IsAtBound, IsCounted, ReadsBase, ReadsUpTo, Remembers};
ghost use Rattle.pool_survey.specs.Steps.{IsKept, Moves, place};

use crate::SurveyFault;
use crate::cursor::Cursor;
use crate::entries::{Kept, kept_at};
use crate::fitting::Found;
use obj_model::{Bytes, NoMemory, Pool};
use std::alloc::Global;
use store_face::{Store, StoreFault};

/// How far the base was read: the place, and what was found up to it.
#[derive(Debug, Drop)]
pub(crate) struct BaseRun {
    pub(crate) cursor: Cursor,
    pub(crate) epoch: u64,
    /// What was found under the key up to which was read last.
    pub(crate) found: Option<Found>,
    /// The first wrong key; the base is not read behind it.
    pub(crate) wrong: Option<Bytes>,
}

impl BaseRun {
    /// Before the first entry.
    pub(crate) fn new(alloc: Global) -> BaseRun
        ensures passed { result.cursor.passed ≡ None }
        ensures page { result.cursor.page.items ≡ [] }
        ensures epoch { result.epoch ≡ 0 }
        ensures wrong { result.wrong ≡ None }
    {
        BaseRun {
            cursor: Cursor::new(alloc),
            epoch: 0,
            found: None,
            wrong: None,
        }
    }

    // Counts an entry in.
    fn count(&mut self, kept: Kept, value: Bytes, bound: Option<&[u8]>)
        requires { IsKept (place self.old.cursor) value kept }
        ensures { IsCounted (option_copied bound.entry) self.old self.new value }
    {
        match kept {
            Kept::Epoch(epoch) => self.epoch = epoch,
            Kept::State(_, state) => {
                if is_at(bound, self.cursor.key()) {
                    self.found = Some(Found {
                        spelled: value,
                        seq: state.seq,
                    });
                }
            }
        }
    }

    // Remembers the key that was passed as wrong.
    fn refuse(&mut self, alloc: Global) -> Result<(), NoMemory>
        ensures { OnOk result (Remembers self.old self.new) }
    {
        self.wrong = Some(Bytes::from_vec(Vec::from_slice(alloc, self.cursor.key())?));
        Ok(())
    }

    // Takes an entry in.
    fn take_in(
        &mut self,
        alloc: Global,
        value: Option<Bytes>,
        bound: Option<&[u8]>,
    ) -> Result<(), NoMemory>
        ensures { CountsIn (option_copied bound.entry) self.old self.new value result }
    {
        match value {
            None => self.refuse(alloc),
            Some(value) => match kept_at(alloc, self.cursor.key(), value.as_slice())? {
                None => self.refuse(alloc),
                Some(kept) => {
                    self.count(kept, value, bound);
                    Ok(())
                }
            },
        }
    }

    // Passes the next key within the bound, if there is one, and reads its value.
    #[tactic(auto, using(crate::proofs::BaseReads::page_of))]
    fn read_value<P: Store>(
        &mut self,
        base: &mut P,
        bound: Option<&[u8]>,
    ) -> Result<Option<Option<Bytes>>, StoreFault>
        requires live { (P.state base.old).live ≡ true }
        requires sound { Sound (P.state base.old) }
        requires so_far { Holds (P.state base.old) (BaseSoFar self.old) }
        ensures moved { Moves (option_copied bound.entry) self.old.cursor self.new.cursor
            (P.state base.old) (P.state base.new) result }
        ensures epoch { self.new.epoch ≡ self.old.epoch }
        ensures found { self.new.found ≡ self.old.found }
        ensures wrong { self.new.wrong ≡ self.old.wrong }
        ensures sound { Sound (P.state base.new) }
    {
        self.cursor.next_value(base, bound)
    }

    // Reads the next entry within the bound, if there is one, and none was wrong before.
    #[tactic(auto, using(crate::proofs::BaseReads::read_rules))]
    fn read_next<P: Store>(
        &mut self,
        alloc: Global,
        base: &mut P,
        bound: Option<&[u8]>,
    ) -> Result<bool, SurveyFault>
        requires live { (P.state base.old).live ≡ true }
        requires sound { Sound (P.state base.old) }
        requires so_far { Holds (P.state base.old) (BaseSoFar self.old) }
        ensures read { ReadsBase (option_copied bound.entry) self.old self.new (P.state base.old)
            (P.state base.new) result }
        ensures sound { Sound (P.state base.new) }
    {
        if self.wrong.is_some() {
            return Ok(false);
        }
        match self.read_value(base, bound) {
            Err(fault) => Err(SurveyFault::Store {
                pool: Pool::Base,
                fault,
            }),
            Ok(None) => Ok(false),
            Ok(Some(value)) => match self.take_in(alloc, value, bound) {
                Err(_) => Err(SurveyFault::NoMemory),
                Ok(()) => Ok(true),
            },
        }
    }

    // Reads all entries within the bound, or up to the first wrong one.
    #[tactic(auto, using(crate::proofs::BaseReads::loop_rules))]
    fn read_all<P: Store>(
        &mut self,
        alloc: Global,
        base: &mut P,
        bound: Option<&[u8]>,
    ) -> Result<(), SurveyFault>
        requires live { (P.state base.old).live ≡ true }
        requires sound { Sound (P.state base.old) }
        requires so_far { Holds (P.state base.old) (BaseSoFar self.old) }
        requires fresh { self.old.found ≡ None }
        ensures read { ReadsUpTo (option_copied bound.entry) self.old self.new (P.state base.old)
            (P.state base.new) result }
        ensures sound { Sound (P.state base.new) }
    {
        // No store has so many keys.
        for _ in 0..u64::MAX {
            match self.read_next(alloc, base, bound) {
                Err(fault) => return Err(fault),
                Ok(true) => {}
                Ok(false) => return Ok(()),
            }
        }
        Err(SurveyFault::NoMemory)
    }

    /// Reads all entries within the bound, or up to the first wrong one, and keeps what it finds
    /// under the key that is the bound.
    #[tactic(auto, using(crate::proofs::BaseReads::bound_rules))]
    pub(crate) fn read_up_to<P: Store>(
        &mut self,
        alloc: Global,
        base: &mut P,
        bound: Option<&[u8]>,
    ) -> Result<(), SurveyFault>
        requires live { (P.state base.old).live ≡ true }
        requires sound { Sound (P.state base.old) }
        requires so_far { Holds (P.state base.old) (BaseSoFar self.old) }
        ensures read { ReadsUpTo (option_copied bound.entry) self.old self.new (P.state base.old)
            (P.state base.new) result }
        ensures sound { Sound (P.state base.new) }
    {
        self.found = None;
        self.read_all(alloc, base, bound)
    }
}

// Whether a key is the bound.
fn is_at(bound: Option<&[u8]>, key: &[u8]) -> bool
    ensures { IsAtBound (option_copied bound.entry) key.now result }
{
    match bound {
        None => false,
        Some(bound) => bound == key,
    }
}
