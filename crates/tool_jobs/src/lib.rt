//! The jobs of the program but for the carrying out of a script: what the words of the command line
//! ask for, a script that is read from its source, checked alone, or generated, and the texts that
//! tell why something is refused.
//!
//! Promises that the words give the job of their definition; that a source is read whole, or told
//! with its cause; that `check` tells the number of lines or the fault of the script, and `gen` the
//! generated script; and each status by its cause. What is outside the program is one record here,
//! before and after, in which no disk is touched by these calls.
#![tactic(auto)]

mod asking;
mod checking;
mod ended;
mod making;
mod pair;
mod putting;
mod reading;

pub use asking::{Chosen, read_job};
pub use checking::check;
pub use ended::{
    ANSWERED, DISK_FAILED, IMAGE_REFUSED, MISUSED, OUT_OF_MEMORY, REFUSED, SINK_FAILED,
    SOURCE_FAILED,
};
pub use making::generate;
pub use pair::DiskPair;
pub use putting::{tell, tell_accepted, tell_bad_image, tell_fault, tell_unbuilt, tell_wrong_pair};
pub use reading::{Unread, read_whole};
