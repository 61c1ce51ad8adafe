//! Requests over long runs: what is kept of them, and what that is worth.
ghost use Rattle.obj_laws.specs.Requests.{ActLowersNoTid, ActsCount, AnswersStay, LaterActs, OneMoreStep, PastIsKept, ReplaysJoin, TidsStay};

use obj_model::{Name, NameState, Req};

/// A request is answered again, or is stale, exactly where its tid or a later one is kept of its
/// client.
pub fn past_is_kept(_state: &NameState, _req: &Req)
    ensures { PastIsKept _state.now _req.now }
{}

/// No act lowers the tid that is kept of any client.
pub fn act_lowers_no_tid(_state: &NameState, _req: &Req)
    ensures { ActLowersNoTid _state.now _req.now }
{}

/// A tid that is kept of a client on a name stays kept, or a later one is, whatever requests come.
pub fn tids_stay(_name: &Name, _client: u64)
    ensures { TidsStay _name.now _client }
{}

/// A request that was answered does not act again, whatever requests come between: where it acted
/// or was answered again it is answered with the same reply or is stale, where it was stale it
/// stays so, and where its name was worn out it still is.
#[tactic(auto, using(crate::proofs::Requesting::answers_stay))]
pub fn answers_stay(_req: &Req)
    ensures { AnswersStay _req.now }
{}

/// A request acts only where it is later than what is kept of its client and where `seq` is below
/// its limit. Then `seq` rises by one, and the request is kept with its reply.
#[tactic(auto, using(crate::proofs::Requesting::acts_count))]
pub fn acts_count(_state: &NameState, _req: &Req)
    ensures { ActsCount _state.now _req.now }
{}

/// And there it does act.
#[tactic(auto, using(crate::proofs::Requesting::later_acts))]
pub fn later_acts(_state: &NameState, _req: &Req)
    ensures { LaterActs _state.now _req.now }
{}

/// Some requests and then others leave the store that all of them leave.
#[tactic(auto, using(crate::proofs::Requesting::replays_join))]
pub fn replays_join()
    ensures { ReplaysJoin }
{}

/// The store after one request more is one step behind the store without it.
#[tactic(auto, using(crate::proofs::Requesting::one_more_step))]
pub fn one_more_step(_req: &Req)
    ensures { OneMoreStep _req.now }
{}
