//! The cache, entry by entry: its epoch, and the sums over its records.
ghost use Rattle.std.specs.Prelude.{◌≡◌, [], true, None, Some};
ghost use Rattle.store_face.specs.Views.{Holds, Sound};
ghost use Rattle.pool_survey.specs.Runs.{Counts, ReadsNext, Refuses, SoFar, TakesIn, no_sums};
ghost use Rattle.pool_survey.specs.Steps.{IsHeld, Moves, place};

use crate::SurveyFault;
use crate::cursor::Cursor;
use crate::entries::{Held, held_at};
use agent_state::Totals;
use obj_model::{Bytes, Name, Pool};
use std::alloc::Global;
use store_face::{Store, StoreFault};
use tier_rec::totals_with;
use tier_types::TierRec;

/// How far the cache was read: the place, and what was found up to it.
#[derive(Debug, Drop)]
pub(crate) struct CacheRun {
    pub(crate) cursor: Cursor,
    pub(crate) epoch: u64,
    pub(crate) totals: Totals,
}

/// What was read next.
#[derive(Debug, Drop)]
pub(crate) enum Read {
    /// Nothing is left.
    End,
    /// The epoch.
    Epoch,
    /// The record of this name, with its spelling.
    Record(Name, TierRec, Bytes),
}

impl CacheRun {
    /// Before the first entry.
    pub(crate) fn new(alloc: Global) -> CacheRun
        ensures passed { result.cursor.passed ≡ None }
        ensures page { result.cursor.page.items ≡ [] }
        ensures epoch { result.epoch ≡ 0 }
        ensures totals { result.totals ≡ no_sums }
    {
        CacheRun {
            cursor: Cursor::new(alloc),
            epoch: 0,
            totals: Totals {
                records: 0,
                dirty: 0,
                bytes: 0,
            },
        }
    }

    // Counts an entry in.
    fn count(&mut self, held: Held, value: Bytes) -> Read
        requires { IsHeld (place self.old.cursor) value held }
        ensures { Counts self.old self.new value result }
    {
        match held {
            Held::Epoch(epoch) => {
                self.epoch = epoch;
                Read::Epoch
            }
            Held::Record(name, record) => {
                self.totals = totals_with(&self.totals, None, Some(&record));
                Read::Record(name, record, value)
            }
        }
    }

    // Passes the next key, if there is one, and reads its value.
    #[tactic(auto, using(crate::proofs::CacheReads::page_of))]
    fn read_value<P: Store>(&mut self, cache: &mut P) -> Result<Option<Option<Bytes>>, StoreFault>
        requires live { (P.state cache.old).live ≡ true }
        requires sound { Sound (P.state cache.old) }
        requires so_far { Holds (P.state cache.old) (SoFar self.old) }
        ensures moved { Moves None self.old.cursor self.new.cursor (P.state cache.old)
            (P.state cache.new) result }
        ensures epoch { self.new.epoch ≡ self.old.epoch }
        ensures totals { self.new.totals ≡ self.old.totals }
        ensures sound { Sound (P.state cache.new) }
    {
        self.cursor.next_value(cache, None)
    }

    /// Reads the next entry.
    #[tactic(auto, using(crate::proofs::CacheReads::read_rules))]
    pub(crate) fn read_next<P: Store>(
        &mut self,
        alloc: Global,
        cache: &mut P,
    ) -> Result<Read, SurveyFault>
        requires live { (P.state cache.old).live ≡ true }
        requires sound { Sound (P.state cache.old) }
        requires so_far { Holds (P.state cache.old) (SoFar self.old) }
        ensures read { ReadsNext self.old self.new (P.state cache.old) (P.state cache.new) result }
        ensures sound { Sound (P.state cache.new) }
    {
        match self.read_value(cache) {
            Err(fault) => Err(SurveyFault::Store {
                pool: Pool::Cache,
                fault,
            }),
            Ok(None) => Ok(Read::End),
            Ok(Some(value)) => self.take_in(alloc, value),
        }
    }

    // Takes an entry in.
    #[tactic(auto, using(crate::proofs::CacheReads::taking_rules))]
    fn take_in(&mut self, alloc: Global, value: Option<Bytes>) -> Result<Read, SurveyFault>
        ensures { TakesIn self.old self.new value result }
    {
        match value {
            None => Err(self.refused(alloc)),
            Some(value) => match held_at(alloc, self.cursor.key(), value.as_slice())? {
                None => Err(self.refused(alloc)),
                Some(held) => Ok(self.count(held, value)),
            },
        }
    }

    // The refusal of the key that was passed.
    fn refused(&self, alloc: Global) -> SurveyFault
        ensures { Refuses (place self.now.cursor) result }
    {
        match Vec::from_slice(alloc, self.cursor.key()) {
            Ok(key) => SurveyFault::BadRecord {
                pool: Pool::Cache,
                key: Bytes::from_vec(key),
            },
            Err(_) => SurveyFault::NoMemory,
        }
    }
}
