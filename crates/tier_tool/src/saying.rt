//! What is said of a line. The promise: the line is carried out on the pool's store, and the text
//! that is made says what was done.
ghost use Rattle.std.specs.Prelude.{◌≡◌, ◌≤◌, ◌<◌, ◌+◌, ◌-◌, ◌^◌, ◌++◌, true, OnOk};
ghost use Rattle.log_store.specs.Commits.{SameStore};
ghost use Rattle.log_store.specs.Views.{store_of};
ghost use Rattle.store_face.specs.Views.{Sound};
ghost use Rattle.tier_outside.specs.Causes.{Rose};
ghost use Rattle.tier_tool.specs.Lines.{line_answer_text};
ghost use Rattle.tier_tool.specs.Lines.LineAnswer.{BadRecord, NoRoom};
ghost use Rattle.tier_tool.specs.Steps.Serving.{GoesOn, acts_more};
ghost use Rattle.tier_tool.specs.Steps.Telling.{IsInWords, SayEnds, SaysFault};
ghost use Rattle.tier_tool.specs.Tasks.{IsTask, name_of};

use crate::base::{LineFault, answer};
use crate::task::{Numbered, Task};
use log_store::LogStore;
use obj_model::{Name, NoMemory, Pool};
use report_text::{Text, put_call};
use std::alloc::Global;
use store_face::Store;
use tier_chron::Answer;
use tier_outside::Disk;

/// Why nothing is said of a line.
#[derive(Clone, Copy, Debug, PartialEq, Eq)]
pub enum Unsaid {
    /// The pool's disk failed. The line may have acted or not.
    Disk,
    /// There was not enough memory for the line. Nothing changed.
    NoMemory,
    /// The line was carried out or refused, and there was not enough memory for its text.
    Unwritten,
}

/// Carries a line out, counts it where it acted, and makes the text of what is said of it.
pub fn say_line<D: Disk + Drop>(
    alloc: Global,
    numbered: &Numbered,
    acts: &mut u64,
    text: &mut Text,
    pool: &mut LogStore<D>,
) -> Result<(), Unsaid>
    requires live { pool.old.live ≡ true }
    requires sound { Sound (store_of pool.old) }
    requires lawful { IsTask numbered.now.line }
    requires room { acts.old < 2 ^ 64 - 1 }
    ensures said { SayEnds numbered.now acts.old acts.new pool.old pool.new text.new result
        (Rose pool.old.faults pool.new.faults) }
    ensures sound { Sound (store_of pool.new) }
    ensures same { SameStore pool.old pool.new }
    ensures goes_on { GoesOn (store_of pool.old) (store_of pool.new) }
    ensures few { acts.new ≤ acts.old + 1 }
    ensures later { pool.old.faults ≤ pool.new.faults }
{
    let number = numbered.number;
    let ended = answer(alloc, pool, &numbered.line);
    // A live store has one map, which is a fact that this call brings along.
    let _ = pool.is_live();
    text.clear();
    match ended {
        Ok((answer, acted)) => {
            *acts += acts_more(acted);
            in_words(put_call(text, number, &answer, *acts))
        }
        Err(fault) => say_fault(numbered, fault, text),
    }
}

// How many acts more there are.
fn acts_more(acted: bool) -> u64
    ensures { result ≡ acts_more acted }
{
    if acted { 1 } else { 0 }
}

// Puts into words why a line was not carried out.
#[tactic(auto, using(crate::proofs::LineAnswer::is_written))]
fn say_fault(numbered: &Numbered, fault: LineFault, text: &mut Text) -> Result<(), Unsaid>
    ensures { SaysFault numbered.now fault text.old text.new result }
{
    match fault {
        LineFault::NoSpace { used, need, limit } => {
            in_words(write_no_space(numbered.number, used, need, limit, text))
        }
        LineFault::BadRecord => in_words(write_bad_record(numbered, text)),
        LineFault::Disk => Err(Unsaid::Disk),
        LineFault::NoMemory => Err(Unsaid::NoMemory),
    }
}

// Nothing is said where memory lacked for the text.
fn in_words(written: Result<(), NoMemory>) -> Result<(), Unsaid>
    ensures { IsInWords written result }
{
    match written {
        Ok(()) => Ok(()),
        Err(_) => Err(Unsaid::Unwritten),
    }
}

// The name that a line speaks of.
fn name_of(line: &Task) -> &Name
    ensures { result.now ≡ name_of line.now }
{
    match line {
        Task::Op(req) => &req.name,
        Task::Get { name, .. } => name,
    }
}

// The pool has no room for a line's act.
fn write_no_space(
    number: u32,
    used: u64,
    need: u64,
    limit: u64,
    text: &mut Text,
) -> Result<(), NoMemory>
    ensures { OnOk result
        (text.new ≡ text.old ++ line_answer_text (NoRoom number used need limit)) }
{
    let refused = Answer::NoSpace {
        pool: Pool::Base,
        used,
        need,
        limit,
    };
    put_call(text, number, &refused, 0)
}

// What the pool has under a line's name spells no state.
fn write_bad_record(numbered: &Numbered, text: &mut Text) -> Result<(), NoMemory>
    ensures { OnOk result (text.new ≡ text.old
        ++ line_answer_text (BadRecord numbered.now.number (name_of numbered.now.line))) }
{
    let refused = Answer::BadRecord {
        pool: Pool::Base,
        name: name_of(&numbered.line).copy()?,
    };
    put_call(text, numbered.number, &refused, 0)
}
