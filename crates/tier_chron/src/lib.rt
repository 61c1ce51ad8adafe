//! The history of a group of clients' calls: the openings of names, the acts and the answers, and
//! what it means that a history is lawful and that its answers fit.
//!
//! - One plain store is behind all answers. A history begins at some store, which every fact names
//!   and which is never worked out from what pools hold; the store at place k is that store behind
//!   the first k acts (`specs/Places.antt`).
//! - A history is legal where each act acted on the store before it, with the reply that it has,
//!   and the openings are the first states of the names that were touched, once each
//!   (`specs/Legal.antt`).
//! - A history has a shape, whatever stores tell: lines, begins, at most one act a call, places,
//!   which answers each call may have, with numbers that agree and on which ways
//!   (`specs/Shapes.antt`).
//! - An answer fits what its call asked, by a table over all answers (`specs/Fits.antt`).
//!
//! What an answer tells of the group stands where groups are known: which unfinished work blocks,
//! between which epochs a start came, whose commit had no room, whether a disk failed.
//!
//! The laws say that all this lasts while a history grows. A history takes its memory before a
//! step, so that what the step pushes cannot fail.
#![tactic(auto)]

mod answer;
mod asked;
mod entries;
mod history;
mod laws;
mod weights;

pub use answer::{AgentDid, Answer};
pub use asked::Asked;
pub use entries::{Act, First, Logged};
pub use history::History;
pub use laws::{
    a_call_keeps_it, an_act_keeps_answers_true, an_act_keeps_it_legal, an_act_keeps_its_shape,
    an_answer_goes_on_fitting, an_answer_keeps_it, answers_fit, each_act_acted, ids_act_once,
    it_begins_anywhere, opening_is_underneath, places_stay, what_was_seen_is_there,
};
