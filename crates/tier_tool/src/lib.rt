//! The program but for its outside: a script read from a source, carried out on the base pool's
//! store on its disk, and what is said of its lines put into a sink; and the other jobs, which
//! `tool_jobs` does.
//!
//! `tier_main` is all that the program does. Its contract says the way from the words of the
//! command line and the bytes of the script to the bytes put, the status, and what a crash leaves
//! of the base's disk.
#![tactic(auto)]

mod answers;
mod base;
mod ended;
mod laws;
mod opening;
mod run;
mod saying;
mod task;
mod telling;
mod top;

pub use ended::Ended;
pub use laws::{later_lines_change_nothing, requests_make_the_store, the_next_run_goes_on};
pub use task::{Numbered, Task};
pub use tool_jobs::DiskPair;
pub use top::tier_main;
