//! Tells why the base is not opened.
ghost use Rattle.std.specs.Prelude.{◌≤◌};
ghost use Rattle.tier_tool.specs.Steps.Opening.{TellsUnopened};
ghost use Rattle.tool_jobs.specs.Outside.{stream};

use log_store::AttachFault;
use obj_model::Pool;
use std::alloc::Global;
use tier_outside::Sink;
use tool_jobs::{DISK_FAILED, OUT_OF_MEMORY, tell_bad_image, tell_wrong_pair};

/// Puts why the base was not opened, where there is more to say than a status.
pub fn tell_unopened<K: Sink>(alloc: Global, fault: AttachFault, out: &mut K) -> u8
    ensures told { TellsUnopened fault (stream K.held K.faults out.old)
        (stream K.held K.faults out.new) result }
    ensures later { K.faults out.old ≤ K.faults out.new }
{
    match fault {
        AttachFault::Disk => DISK_FAILED,
        AttachFault::BadImage { at } => tell_bad_image(alloc, Pool::Base, 0, at, out),
        AttachFault::WrongPair { found, want } => {
            tell_wrong_pair(alloc, Pool::Base, 0, found, want, out)
        }
        AttachFault::NoMemory => OUT_OF_MEMORY,
    }
}
