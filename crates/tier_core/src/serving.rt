//! A client's call is served from the cache's record of its name.
ghost use Rattle.std.specs.Prelude.{◌≡◌, ◌↔◌, true, None, Some, IsTrue, OnErr, OnOk};
ghost use Rattle.std.specs.Option.{option_copied};
ghost use Rattle.std.specs.FinMap as fin;
ghost use Rattle.obj_model.specs.States.{IsState};
ghost use Rattle.obj_ops.specs.Acts.{act, look, state_after};
ghost use Rattle.obj_ops.specs.declared.request.Acted.TheVariants.{Fresh};
ghost use Rattle.tier_chron.specs.declared.asked.Asked.TheVariants.{Read};
ghost use Rattle.tier_core.specs.Ends.{IsEnded};
ghost use Rattle.tier_core.specs.Serves.{Answers, IsBare, IsHit, IsUnacted, MayBeServed, MayWriteHere, Serves, ServesAsk, ServesWrite, answered_here, as_outcome, asked_of, served_as, with_ask};
ghost use Rattle.tier_core.specs.Turns.{IsTurn};
ghost use Rattle.tier_join.specs.Promises.{as_it_is, with_req};
ghost use Rattle.tier_join.specs.Steps.{HasRec};
ghost use Rattle.tier_types.specs.Flights.{lets_write, name_asked};
ghost use Rattle.tier_view.specs.Answered.{kept_answer, looked_answer};
ghost use Rattle.tier_view.specs.Answers.{KeepsQuietly};
ghost use Rattle.tier_view.specs.Laws.{Keeps};
ghost use Rattle.tier_view.specs.Views.{joined};

use crate::{Group, Turn};
use cache_pool::CacheFault;
use obj_model::{Name, NameState, NoMemory, Path, Reply, Req, Vector};
use obj_ops::{Acted, act};
use store_face::{Store, StoreFault};
use tier_chron::{Answer, Logged};
use tier_types::{Ask, Flight, Phase, TierRec};

/// What came of a client's call at the cache's record of its name.
#[derive(Debug, Drop)]
pub enum Served {
    /// The call was answered from the record, and has ended.
    Answered,
    /// The cache has no record of the name. The call is in flight still.
    Absent,
    /// The record was not read, for this cause. The call is in flight still.
    Unread(CacheFault),
    /// The call was not answered, for this cause: its act was not committed, or is in doubt where
    /// the disk failed; or there was not the memory. It is in flight still.
    Uncommitted(StoreFault),
}

// A kept reply, as an answer.
fn kept_answer(reply: Reply) -> Answer
    ensures { result ≡ kept_answer reply }
{
    match reply {
        Reply::Done { ver } => Answer::Done { ver, kept: true },
        Reply::Refused { at, why, ver } => Answer::Refused {
            at,
            why,
            ver,
            kept: true,
        },
    }
}

// What a call came to that only memory can fail, as what a commit came to.
fn as_outcome(made: Result<(), NoMemory>) -> Result<(), StoreFault>
    ensures { result ≡ as_outcome made }
{
    match made {
        Ok(()) => Ok(()),
        Err(_) => Err(StoreFault::NoMemory),
    }
}

// Whether a client may write in the cache while this is under way.
fn lets_write(work: Option<&Flight>) -> bool
    ensures { result ≡ lets_write (option_copied work.entry) }
{
    match work {
        None => true,
        Some(Flight::Flush { blocking, .. }) => !*blocking,
        Some(_) => false,
    }
}

// The name that a client asks about.
fn name_asked(ask: &Ask) -> &Name
    ensures { result.now ≡ name_asked ask.now }
{
    match ask {
        Ask::Write(req) => &req.name,
        Ask::Read { name, .. } => name,
    }
}

// What a call came to at a record.
fn served_as(made: Result<(), StoreFault>) -> Served
    ensures { result ≡ served_as made }
{
    match made {
        Ok(()) => Served::Answered,
        Err(fault) => Served::Uncommitted(fault),
    }
}

impl<P: Store> Group<P> {
    // Whether a write request on this name may be served from a record.
    fn may_write_here(&self, call: u64, name: &Name) -> bool
        ensures { IsTrue result ↔ MayWriteHere self.now call name.now }
    {
        let up = matches!(self.start.phase, Phase::Up);
        let lets = lets_write(self.wires.flights().get(name));
        let free = self.history.may_act(call);
        up && lets && free
    }

    /// Whether a client's call in flight may be served from a record: a reading always may, and a
    /// write request while the cache is up and no work on the name keeps writers out, if the call
    /// may still act.
    pub fn may_serve(&self, call: u64, ask: &Ask) -> bool
        ensures { IsTrue result ↔ MayBeServed self.now call ask.now }
    {
        match ask {
            Ask::Write(req) => self.may_write_here(call, &req.name),
            Ask::Read { .. } => true,
        }
    }

    /// Answers a write request that does not act on the record of its name, at the present number
    /// of acts, and ends its call. Nothing is committed. Without memory nothing changes.
    pub fn answer_unacted(
        &mut self,
        turn: Turn,
        req: &Req,
        held: &TierRec,
        answer: Answer,
    ) -> Result<(), NoMemory>
        requires hit { IsHit self.old turn req.now held.now }
        requires unacted { IsUnacted (act held.now.state req.now) answer }
        ensures ended { OnOk result
            (IsEnded turn.call (Some (answered_here turn self.old.log answer)) self.old self.new) }
        ensures step { OnOk result (KeepsQuietly self.old self.new) }
        ensures refused { OnErr result (self.new ≡ self.old) }
    {
        let acts = self.history.acts().len() as u64;
        self.answer_call(Logged {
            call: turn.call,
            line: turn.line,
            begin: turn.begin,
            place: acts,
            end: acts,
            path: Some(Path::Hit),
            answer,
        })
    }

    // The same, answered as a commit is.
    fn answer_hit(
        &mut self,
        turn: Turn,
        req: &Req,
        held: &TierRec,
        answer: Answer,
    ) -> Result<(), StoreFault>
        requires hit { IsHit self.old turn req.now held.now }
        requires unacted { IsUnacted (act held.now.state req.now) answer }
        ensures answered { Answers turn answer self.old self.new result }
        ensures step { Keeps (with_req req.now) None self.old self.new }
    {
        // What always holds is a fact that a field brings along.
        let _calls = &self.calls;
        as_outcome(self.answer_unacted(turn, req, held, answer))
    }

    // A write request that acts on the record of its name is committed and answered.
    fn write_fresh(
        &mut self,
        turn: Turn,
        req: &Req,
        held: TierRec,
        state: NameState,
        reply: Reply,
    ) -> Result<(), StoreFault>
        requires live { self.old.stores.cache.live ≡ true }
        requires hit { IsHit self.old turn req.now held }
        requires lets { lets_write (fin.get self.old.traffic.flights req.now.name) ≡ true }
        requires acted { act held.state req.now ≡ Fresh state reply }
        requires lawful { IsState state }
        ensures served { ServesWrite turn req.now held (Fresh state reply) self.old self.new
            result }
        ensures step { Keeps (with_req req.now) None self.old self.new }
    {
        // What always holds is a fact that a field brings along.
        let _calls = &self.calls;
        let req = req.copy()?;
        self.write_here(turn, req, held, state, reply)
    }

    // Serves a write request by what it does to the record's state.
    fn serve_acted(
        &mut self,
        turn: Turn,
        req: &Req,
        held: TierRec,
        acted: Acted,
    ) -> Result<(), StoreFault>
        requires live { self.old.stores.cache.live ≡ true }
        requires hit { IsHit self.old turn req.now held }
        requires lets { lets_write (fin.get self.old.traffic.flights req.now.name) ≡ true }
        requires acted { acted ≡ act held.state req.now }
        requires lawful { IsState (state_after held.state acted) }
        ensures served { ServesWrite turn req.now held acted self.old self.new result }
        ensures step { Keeps (with_req req.now) None self.old self.new }
    {
        match acted {
            Acted::Fresh { state, reply } => self.write_fresh(turn, req, held, state, reply),
            Acted::Again { reply } => self.answer_hit(turn, req, &held, kept_answer(reply)),
            Acted::Stale { kept } => self.answer_hit(turn, req, &held, Answer::Stale { kept }),
            Acted::Worn { limit } => self.answer_hit(turn, req, &held, Answer::Worn { limit }),
        }
    }

    // Serves a write request from the record that was read of its name.
    fn serve_write(&mut self, turn: Turn, req: &Req, held: TierRec) -> Result<(), StoreFault>
        requires live { self.old.stores.cache.live ≡ true }
        requires hit { IsHit self.old turn req.now held }
        requires lets { lets_write (fin.get self.old.traffic.flights req.now.name) ≡ true }
        requires lawful { IsState held.state }
        ensures served { ServesWrite turn req.now held (act held.state req.now) self.old self.new
            result }
        ensures step { Keeps (with_req req.now) None self.old self.new }
    {
        // What always holds is a fact that a field brings along.
        let _calls = &self.calls;
        let acted = act(self.alloc, &held.state, req)?;
        self.serve_acted(turn, req, held, acted)
    }

    // Answers a reading from the record that was read of its name.
    fn serve_read(
        &mut self,
        turn: Turn,
        client: u16,
        name: &Name,
        vector: &Vector,
        held: &TierRec,
    ) -> Result<(), StoreFault>
        requires settled { self.old.stores.pending ≡ None }
        requires turn { IsTurn self.old turn (Read client name.now vector.now) }
        requires has { HasRec (joined self.old) name.now (Some held.now) }
        ensures served { Answers turn (looked_answer (look held.now.state vector.now)) self.old
            self.new result }
        ensures step { Keeps as_it_is None self.old self.new }
    {
        // What always holds is a fact that a field brings along.
        let _calls = &self.calls;
        as_outcome(self.look_here(turn, client, name, vector, held))
    }

    // Serves a client's call from the record that was read of its name.
    fn serve_held(&mut self, turn: Turn, ask: &Ask, held: TierRec) -> Result<(), StoreFault>
        requires live { self.old.stores.cache.live ≡ true }
        requires settled { self.old.stores.pending ≡ None }
        requires turn { IsTurn self.old turn (asked_of ask.now) }
        requires may { MayBeServed self.old turn.call ask.now }
        requires has { HasRec (joined self.old) (name_asked ask.now) (Some held) }
        requires lawful { IsState held.state }
        ensures served { ServesAsk turn ask.now held self.old self.new result }
        ensures step { Keeps (with_ask ask.now) None self.old self.new }
    {
        match ask {
            Ask::Write(req) => self.serve_write(turn, req, held),
            Ask::Read {
                client,
                name,
                vector,
            } => self.serve_read(turn, *client, name, vector, &held),
        }
    }

    /// Serves a client's call in flight from the cache's record of its name. A reading is answered
    /// from the record. A write request acts on its state: the act is committed, the record dirty,
    /// and the call answered by the reply, in one step; one that acted before is answered its kept
    /// reply, one that comes too late or meets a name that is worn out is told so, and these commit
    /// nothing. A removal leaves a record too, of a state without an object.
    ///
    /// Without a record, or where it could not be read, nothing changes but the cache's store. All
    /// memory is taken before the commit: where it lacks, nothing has changed behind the reading.
    pub fn serve_here(&mut self, turn: Turn, ask: &Ask) -> Served
        requires live { self.old.stores.cache.live ≡ true }
        requires settled { self.old.stores.pending ≡ None }
        requires turn { IsTurn self.old turn (asked_of ask.now) }
        requires may { MayBeServed self.old turn.call ask.now }
        ensures serves { Serves turn ask.now self.old self.new result }
        ensures bare { IsBare self.new (name_asked ask.now) result }
    {
        match self.read_here(name_asked(ask)) {
            Err(fault) => Served::Unread(fault),
            Ok(None) => Served::Absent,
            Ok(Some(held)) => served_as(self.serve_held(turn, ask, held)),
        }
    }
}
