//! A write request acts on a record of the cache, and is answered.
ghost use Rattle.std.specs.Prelude.{◌≡◌, true, None, Some, OnOk};
ghost use Rattle.cache_pool.specs.Puts.{Commits, record_put};
ghost use Rattle.obj_model.specs.States.{IsState};
ghost use Rattle.tier_chron.specs.declared.asked.Asked.TheVariants.{Write};
ghost use Rattle.tier_core.specs.Acts.{first_for};
ghost use Rattle.tier_core.specs.Turns.{IsTurn};
ghost use Rattle.tier_core.specs.Writes.{Writes};
ghost use Rattle.tier_join.specs.Promises.{with_req};
ghost use Rattle.tier_join.specs.Steps.{HasRec};
ghost use Rattle.tier_rec.specs.Records.{acted_record};
ghost use Rattle.tier_view.specs.Answered.{own_answer};
ghost use Rattle.tier_view.specs.Laws.{Keeps};
ghost use Rattle.tier_view.specs.Locals.{ActsHere};
ghost use Rattle.tier_view.specs.Views.{joined};

use crate::acts::{Acting, finish, prepare};
use crate::ends::end_made;
use crate::{Group, Turn};
use cache_pool::put_record;
use obj_model::{NameState, Path, Reply, Req};
use store_face::{Store, StoreFault};
use tier_chron::{Act, Answer, Logged};
use tier_rec::{after_act, totals_with};
use tier_types::TierRec;

/// The answer that is an act's reply.
pub(crate) fn own_answer(reply: Reply) -> Answer
    ensures { result ≡ own_answer reply }
{
    match reply {
        Reply::Done { ver } => Answer::Done { ver, kept: false },
        Reply::Refused { at, why, ver } => Answer::Refused {
            at,
            why,
            ver,
            kept: false,
        },
    }
}

impl<P: Store> Group<P> {
    /// Commits the act of a write request in flight, as `act_here` does, and answers the call by its
    /// reply: memory for both is taken before the commit, so an act that is there was answered. The
    /// cache then has a record of the name, also where the state has no object. With any fault the
    /// call is in flight still.
    pub fn write_here(
        &mut self,
        turn: Turn,
        req: Req,
        held: TierRec,
        state: NameState,
        reply: Reply,
    ) -> Result<(), StoreFault>
        requires live { self.old.stores.cache.live ≡ true }
        requires settled { self.old.stores.pending ≡ None }
        requires turn { IsTurn self.old turn (Write req) }
        requires on { ActsHere self.old turn.call turn.line req held state reply
            (first_for self.old.log.opening req.name held.state) }
        requires has { HasRec (joined self.old) req.name (Some held) }
        requires lawful { IsState state }
        ensures written { Writes turn req reply held state self.old self.new result }
        ensures put { Commits (record_put req.name (acted_record state self.old.agent.moment))
            self.old.stores.cache self.new.stores.cache result }
        ensures there { OnOk result (HasRec (joined self.new) req.name
            (Some (acted_record state self.old.agent.moment))) }
        ensures step { Keeps (with_req req) None self.old self.new }
    {
        let Group {
            alloc,
            cache,
            pending,
            history,
            calls,
            wires,
            agent,
            ..
        } = self;
        let Ok(first) = prepare(history, 2, &req.name, &held.state) else {
            return Err(StoreFault::NoMemory);
        };
        let place = history.acts().len() as u64 + 1;
        let record = after_act(state, agent.moment);
        let totals = totals_with(&agent.totals, Some(&held), Some(&record));
        let made = put_record(*alloc, cache, &req.name, &record);
        let acting = Acting {
            first,
            act: Act {
                call: turn.call,
                line: turn.line,
                req,
                reply,
            },
            seq: record.state.seq,
            totals,
        };
        finish(history, pending, &mut agent.totals, acting, made);
        let logged = Logged {
            call: turn.call,
            line: turn.line,
            begin: turn.begin,
            place,
            end: place,
            path: Some(Path::Hit),
            answer: own_answer(reply),
        };
        end_made(history, calls, wires, logged, made);
        made
    }
}
