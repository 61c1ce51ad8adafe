//! What follows from the definitions, in plain words. These calls do nothing: their contracts are
//! the laws.
ghost use Rattle.tier_chron.specs.Laws.{ActKeepsLegal, ActKeepsShape, ActKeepsTruth, AnswerKeeps, AnswerStays, AnswersFit, BeginsAnywhere, CallKeeps, EachActed, IdsActOnce, OpeningIsUnderneath, PlacesStay, SeenBefore};

use crate::{Act, History, Logged};

/// The store at which a history began is the present one with the openings written over it, name by
/// name.
#[tactic(auto, using(crate::proofs::Places::opening_is_underneath))]
pub fn opening_is_underneath(_history: &History)
    ensures { OpeningIsUnderneath _history.now.log }
{}

/// The store at a place stays what it is when further acts come.
#[tactic(auto, using(crate::proofs::Places::places_stay))]
pub fn places_stay(_history: &History)
    ensures { PlacesStay _history.now.log }
{}

/// In a legal history each act acted on the store at the place before it, with its reply.
#[tactic(auto, using(crate::proofs::Places::each_acted))]
pub fn each_act_acted(_history: &History)
    ensures { EachActed _history.now.log }
{}

/// A legal history stays legal with one act more that is fresh with its reply, with its opening
/// where the name is new.
#[tactic(auto, using(crate::proofs::Growing::act_keeps_legal))]
pub fn an_act_keeps_it_legal(_act: &Act)
    ensures { ActKeepsLegal _act.now }
{}

/// A history keeps its shape with one act more of a call that asked for it, has none yet and was
/// not answered, but by a fault.
pub fn an_act_keeps_its_shape(_act: &Act)
    ensures { ActKeepsShape _act.now }
{}

/// All logged answers go on telling the truth when such an act comes.
pub fn an_act_keeps_answers_true(_act: &Act)
    ensures { ActKeepsTruth _act.now }
{}

/// An answer that fits goes on fitting behind every act of another call, and a fault behind the
/// first act of its own call.
pub fn an_answer_goes_on_fitting(_act: &Act, _logged: &Logged)
    ensures { AnswerStays _act.now _logged.now }
{}

/// A history goes on, in all that is said of it, with one answer more that fits and whose call has
/// none yet.
#[tactic(auto, using(crate::proofs::Staying::answer_keeps))]
pub fn an_answer_keeps_it(_logged: &Logged)
    ensures { AnswerKeeps _logged.now }
{}

/// In a history from a store each answer fits what its call asked.
#[tactic(auto, using(crate::proofs::Staying::answers_fit))]
pub fn answers_fit(_history: &History)
    ensures { AnswersFit _history.now.log }
{}

/// In a legal history every request id acts at most once on its name.
#[tactic(auto, using(crate::proofs::Ids::ids_act_once))]
pub fn ids_act_once(_history: &History)
    ensures { IdsActOnce _history.now.log }
{}

/// A call that begins now begins at no lower place than that of any answer logged so far, so its
/// place holds what its caller had seen.
#[tactic(auto, using(crate::proofs::Growing::seen_before))]
pub fn what_was_seen_is_there(_history: &History)
    ensures { SeenBefore _history.now.log }
{}

/// A history goes on, in all that is said of it, when a call begins under a new number.
#[tactic(auto, using(crate::proofs::Calls::call_keeps))]
pub fn a_call_keeps_it(_history: &History)
    ensures { CallKeeps _history.now.log }
{}

/// A history in which nothing happened yet is one from every store.
#[tactic(auto, using(crate::proofs::Calls::begins_anywhere))]
pub fn it_begins_anywhere()
    ensures { BeginsAnywhere }
{}
