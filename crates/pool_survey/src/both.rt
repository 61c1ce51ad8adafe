//! What two stores hold, read side by side.
ghost use Rattle.std.specs.Prelude.{◌≡◌, true};
ghost use Rattle.store_face.specs.Views.{Holds, Sound};
ghost use Rattle.pool_survey.specs.Runs.{AreRead, BaseSoFar, Compares, Concludes, Finishes, ReadsOn, TakesRecord};
ghost use Rattle.pool_survey.specs.Steps.{SpellsRec};
ghost use Rattle.pool_survey.specs.Surveys.{Surveys};

use crate::base::BaseRun;
use crate::cache::{CacheRun, Read};
use crate::fitting::fits;
use crate::{Survey, SurveyFault};
use obj_model::{Bytes, Name, Pool};
use pool_keys::state_key;
use std::alloc::Global;
use store_face::Store;
use tier_types::TierRec;

// How far both were read: the places, and the first name whose record does not lie rightly.
#[derive(Debug, Drop)]
struct Run {
    cache: CacheRun,
    base: BaseRun,
    unsound: Option<Name>,
}

impl Run {
    // Compares a record with what the base has of its name.
    fn compare(&mut self, name: Name, rec: &TierRec, value: &Bytes)
        requires { SpellsRec value.now rec.now }
        ensures { Compares self.old self.new name rec.now }
    {
        if self.unsound.is_none() && !fits(rec, value.as_slice(), &self.base.found) {
            self.unsound = Some(name);
        }
    }

    // Reads the base up to the name of a record, and compares both.
    fn take_in<B: Store>(
        &mut self,
        alloc: Global,
        base: &mut B,
        name: Name,
        rec: &TierRec,
        value: &Bytes,
    ) -> Result<bool, SurveyFault>
        requires live { (B.state base.old).live ≡ true }
        requires sound { Sound (B.state base.old) }
        requires so_far { Holds (B.state base.old) (BaseSoFar self.old.base) }
        requires spelled { SpellsRec value.now rec.now }
        ensures taken { TakesRecord self.old self.new name rec.now (B.state base.old)
            (B.state base.new) result }
        ensures sound { Sound (B.state base.new) }
    {
        let key = state_key(alloc, &name)?;
        match self.base.read_up_to(alloc, base, Some(key.as_slice())) {
            Err(fault) => Err(fault),
            Ok(()) => {
                self.compare(name, rec, value);
                Ok(true)
            }
        }
    }

    // Reads the next entry of the cache, and where it is a record the base up to its name.
    #[tactic(auto, using(crate::proofs::BothReads::reading_rules))]
    fn read_next<C: Store, B: Store>(
        &mut self,
        alloc: Global,
        cache: &mut C,
        base: &mut B,
    ) -> Result<bool, SurveyFault>
        requires cache_live { (C.state cache.old).live ≡ true }
        requires base_live { (B.state base.old).live ≡ true }
        requires cache_sound { Sound (C.state cache.old) }
        requires base_sound { Sound (B.state base.old) }
        requires so_far { AreRead self.old (C.state cache.old) (B.state base.old) }
        ensures read { ReadsOn self.old self.new (C.state cache.old) (C.state cache.new)
            (B.state base.old) (B.state base.new) result }
        ensures cache_sound { Sound (C.state cache.new) }
        ensures base_sound { Sound (B.state base.new) }
    {
        match self.cache.read_next(alloc, cache) {
            Err(fault) => Err(fault),
            Ok(Read::End) => Ok(false),
            Ok(Read::Epoch) => Ok(true),
            Ok(Read::Record(name, rec, value)) => self.take_in(alloc, base, name, &rec, &value),
        }
    }

    // Reads the base to its end, and tells what was read of both.
    #[tactic(auto, using(crate::proofs::Endings::finish_rules))]
    fn finish<B: Store>(self, alloc: Global, base: &mut B) -> Result<Survey, SurveyFault>
        requires live { (B.state base.old).live ≡ true }
        requires sound { Sound (B.state base.old) }
        requires so_far { Holds (B.state base.old) (BaseSoFar self.base) }
        ensures finished { Finishes self (B.state base.old) (B.state base.new) result }
        ensures sound { Sound (B.state base.new) }
    {
        let mut run = self;
        match run.base.read_up_to(alloc, base, None) {
            Err(fault) => Err(fault),
            Ok(()) => run.conclude(),
        }
    }

    // What is told of what was read, to the ends of both.
    fn conclude(self) -> Result<Survey, SurveyFault>
        ensures { Concludes self result }
    {
        let Run {
            cache,
            base,
            unsound,
        } = self;
        let BaseRun { epoch, wrong, .. } = base;
        if let Some(key) = wrong {
            return Err(SurveyFault::BadRecord {
                pool: Pool::Base,
                key,
            });
        }
        if cache.epoch > 0 && cache.epoch < epoch {
            return Err(SurveyFault::Epochs {
                cache: cache.epoch,
                base: epoch,
            });
        }
        if let Some(name) = unsound {
            return Err(SurveyFault::Unsound { name });
        }
        Ok(Survey {
            cache_epoch: cache.epoch,
            base_epoch: epoch,
            totals: cache.totals,
        })
    }
}

/// Reads every key and value of a cache and a base once, in their order, and tells what they hold,
/// or the first cause why no group can be attached over them: the first wrong key or value of the
/// cache, the first one of the base, epochs that do not fit, the first name whose record does not
/// lie rightly over the base's state. Both stores stay as they were.
#[tactic(auto, using(crate::proofs::Endings::survey_rules))]
pub fn survey<C: Store, B: Store>(
    alloc: Global,
    cache: &mut C,
    base: &mut B,
) -> Result<Survey, SurveyFault>
    requires cache_live { (C.state cache.old).live ≡ true }
    requires base_live { (B.state base.old).live ≡ true }
    ensures told { Surveys (C.state cache.old) (C.state cache.new) (B.state base.old)
        (B.state base.new) result }
    ensures cache_sound { Sound (C.state cache.new) }
    ensures base_sound { Sound (B.state base.new) }
{
    // Whether they are live is known; that live stores are sound is a fact that the calls bring.
    let _cache_live = cache.is_live();
    let _base_live = base.is_live();
    let mut run = Run {
        cache: CacheRun::new(alloc),
        base: BaseRun::new(alloc),
        unsound: None,
    };
    // No store has so many keys.
    for _ in 0..u64::MAX {
        match run.read_next(alloc, cache, base) {
            Err(fault) => return Err(fault),
            Ok(true) => {}
            Ok(false) => return run.finish(alloc, base),
        }
    }
    Err(SurveyFault::NoMemory)
}
