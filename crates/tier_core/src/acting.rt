//! A request acts on a record of the cache.
ghost use Rattle.std.specs.Prelude.{◌≡◌, true, None, Some};
ghost use Rattle.cache_pool.specs.Puts.{Commits, record_put};
ghost use Rattle.obj_model.specs.States.{IsState};
ghost use Rattle.tier_core.specs.Acts.{first_for};
ghost use Rattle.tier_join.specs.Promises.{with_req};
ghost use Rattle.tier_join.specs.Steps.{HasRec};
ghost use Rattle.tier_rec.specs.Records.{acted_record};
ghost use Rattle.tier_view.specs.Laws.{Keeps};
ghost use Rattle.tier_view.specs.Locals.{ActsHere, acted_locally};
ghost use Rattle.tier_view.specs.Views.{joined};

use crate::Group;
use crate::acts::{Acting, finish, prepare};
use cache_pool::put_record;
use obj_model::NameState;
use store_face::{Store, StoreFault};
use tier_chron::Act;
use tier_rec::{after_act, totals_with};
use tier_types::TierRec;

impl<P: Store> Group<P> {
    /// Commits an act of a call in flight on the record that was read of its name: the name has this
    /// state behind it, and the record is dirty, of the present moment. The act enters the history
    /// where the commit was made. Where the disk failed it is in doubt, and Disk is answered. With
    /// any other fault nothing has changed.
    pub fn act_here(&mut self, act: Act, held: TierRec, state: NameState) -> Result<(), StoreFault>
        requires live { self.old.stores.cache.live ≡ true }
        requires settled { self.old.stores.pending ≡ None }
        requires on { ActsHere self.old act.call act.line act.req held state act.reply
            (first_for self.old.log.opening act.req.name held.state) }
        requires has { HasRec (joined self.old) act.req.name (Some held) }
        requires lawful { IsState state }
        ensures acted { self.new ≡ acted_locally
            (first_for self.old.log.opening act.req.name held.state) act held state
            self.old.agent.moment self.new.stores.cache result self.old }
        ensures put { Commits (record_put act.req.name (acted_record state self.old.agent.moment))
            self.old.stores.cache self.new.stores.cache result }
        ensures step { Keeps (with_req act.req) None self.old self.new }
    {
        let Group {
            alloc,
            cache,
            pending,
            history,
            agent,
            ..
        } = self;
        let Ok(first) = prepare(history, 1, &act.req.name, &held.state) else {
            return Err(StoreFault::NoMemory);
        };
        let record = after_act(state, agent.moment);
        let totals = totals_with(&agent.totals, Some(&held), Some(&record));
        let made = put_record(*alloc, cache, &act.req.name, &record);
        let acting = Acting {
            first,
            act,
            seq: record.state.seq,
            totals,
        };
        finish(history, pending, &mut agent.totals, acting, made);
        made
    }
}
