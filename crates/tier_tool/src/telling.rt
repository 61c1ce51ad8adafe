//! Carries lines out one after another, and puts what is said of each before the next, one text a
//! call of the sink. The promise: what was put is what is said of the lines, in their order.
ghost use Rattle.std.specs.Prelude.{◌≡◌, ◌≤◌, ◌<◌, ◌+◌, ◌-◌, ◌^◌, ◌++◌, true, All, OnOk};
ghost use Rattle.log_store.specs.Commits.{SameStore};
ghost use Rattle.log_store.specs.Views.{store_of};
ghost use Rattle.store_face.specs.Views.{Sound};
ghost use Rattle.tier_outside.specs.Causes.{Rose};
ghost use Rattle.tier_tool.specs.Lines.{TellsFailure, disk_fault_text};
ghost use Rattle.tier_tool.specs.Steps.Serving.{GoesOn};
ghost use Rattle.tier_tool.specs.Steps.Telling.{TellsLine, TellsLines};
ghost use Rattle.tool_jobs.specs.Putting.{Took};
ghost use Rattle.tier_tool.specs.Tasks.{IsTask};

use crate::saying::{Unsaid, say_line};
use crate::task::Numbered;
use log_store::LogStore;
use obj_model::{NoMemory, Pool};
use report_text::{Text, put_call};
use std::alloc::Global;
use tier_chron::Answer;
use tier_outside::{Disk, Sink};
use tool_jobs::{ANSWERED, DISK_FAILED, OUT_OF_MEMORY, SINK_FAILED, tell};

/// Carries all lines out on a live store, and puts what is said of each before the next is carried
/// out.
pub fn tell_lines<D: Disk + Drop, K: Sink>(
    alloc: Global,
    lines: &[Numbered],
    pool: &mut LogStore<D>,
    out: &mut K,
) -> u8
    requires live { pool.old.live ≡ true }
    requires sound { Sound (store_of pool.old) }
    requires lawful { All (λ n. IsTask n.line) lines.now }
    ensures told { Took (K.held out.old) (K.held out.new) (λ put. TellsLines lines.now pool.old
        pool.new (Rose pool.old.faults pool.new.faults) (Rose (K.faults out.old) (K.faults out.new))
        put result) }
    ensures same { SameStore pool.old pool.new }
    ensures goes_on { GoesOn (store_of pool.old) (store_of pool.new) }
    ensures sink_later { K.faults out.old ≤ K.faults out.new }
    ensures disk_later { pool.old.faults ≤ pool.new.faults }
{
    let mut text = Text::new(alloc);
    let mut acts = 0;
    for numbered in lines {
        match tell_line(alloc, numbered, &mut acts, &mut text, pool, out) {
            Ok(()) => {}
            Err(status) => return status,
        }
    }
    ANSWERED
}

// Carries a line out, and puts what is said of it. An error is the status with which the run ends.
fn tell_line<D: Disk + Drop, K: Sink>(
    alloc: Global,
    numbered: &Numbered,
    acts: &mut u64,
    text: &mut Text,
    pool: &mut LogStore<D>,
    out: &mut K,
) -> Result<(), u8>
    requires live { pool.old.live ≡ true }
    requires sound { Sound (store_of pool.old) }
    requires lawful { IsTask numbered.now.line }
    requires room { acts.old < 2 ^ 64 - 1 }
    ensures told { Took (K.held out.old) (K.held out.new) (λ put. TellsLine numbered.now acts.old
        acts.new pool.old pool.new (Rose pool.old.faults pool.new.faults)
        (Rose (K.faults out.old) (K.faults out.new)) put result) }
    ensures sound { Sound (store_of pool.new) }
    ensures same { SameStore pool.old pool.new }
    ensures goes_on { GoesOn (store_of pool.old) (store_of pool.new) }
    ensures few { acts.new ≤ acts.old + 1 }
    ensures sink_later { K.faults out.old ≤ K.faults out.new }
    ensures disk_later { pool.old.faults ≤ pool.new.faults }
{
    match say_line(alloc, numbered, acts, text, pool) {
        Ok(()) => match out.put(text.as_slice()) {
            Ok(()) => Ok(()),
            Err(_) => Err(SINK_FAILED),
        },
        Err(Unsaid::Disk) => Err(tell_disk_fault(numbered, text, out)),
        Err(Unsaid::NoMemory) => Err(OUT_OF_MEMORY),
        Err(Unsaid::Unwritten) => Err(OUT_OF_MEMORY),
    }
}

// Puts that the base's disk failed in a line, where there is the memory for it.
fn tell_disk_fault<K: Sink>(numbered: &Numbered, text: &mut Text, out: &mut K) -> u8
    ensures told { Took (K.held out.old) (K.held out.new) (λ put.
        TellsFailure (Rose (K.faults out.old) (K.faults out.new)) numbered.now put result) }
    ensures later { K.faults out.old ≤ K.faults out.new }
{
    text.clear();
    match write_disk_fault(numbered.number, text) {
        Ok(()) => tell(text.as_slice(), DISK_FAILED, out),
        Err(_) => DISK_FAILED,
    }
}

// The base's disk failed in a line.
fn write_disk_fault(number: u32, text: &mut Text) -> Result<(), NoMemory>
    ensures { OnOk result (text.new ≡ text.old ++ disk_fault_text number) }
{
    let failed = Answer::DiskFault { pool: Pool::Base };
    put_call(text, number, &failed, 0)
}
