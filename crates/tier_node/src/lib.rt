//! Events on a group, and lists of them.
//!
//! An event is one thing that happens to a group: a client's call begins, a message reaches the
//! base, a reply is received, either is lost, a pool stops, the group is started further, a call
//! goes on. `step` makes what it asks for and answers an outcome; what an event makes of the group,
//! and which outcome comes when, is a relation (`specs/Steps.antt`). `run_events` carries out a list
//! of events, one behind the other, and has the theorem of such a run (`specs/Runs.antt`): what
//! always holds goes on, and over stores that tell the group stands for one plain object store
//! throughout.
#![tactic(auto)]

mod advancing;
mod calling;
mod causes;
mod delivering;
mod event;
mod forgetting;
mod keeping;
mod outcome;
mod receiving;
mod running;
mod starting;
mod stepping;
mod telling;

pub use event::Event;
pub use outcome::{Fault, Outcome};
pub use running::run_events;
pub use stepping::step;
