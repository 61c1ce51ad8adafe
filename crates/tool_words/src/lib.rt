//! The words of the command line: a job, three flags and two numbers.
//!
//! `rados_tier JOB [--paths] [--history] [--summary] [--count N] [--start N]`, read by one `clap`
//! command.
//!
//! Promises that words give an invocation exactly where that command takes them and the job is one
//! of the four; that each part of it is then what the words gave, or the default where they gave
//! nothing; and that all other words are refused, a call for help among them. A count is at most
//! 1,000,000. Only want of memory is told of any words.
#![tactic(auto)]

ghost use Rattle.std.specs.Prelude.{◌≡◌, ◌≤◌, map, string_bytes, Some, None, IfOk, IsErrOf};
ghost use Rattle.tool_words.specs.Words.{invocation_of};

mod command;
mod values;

use command::matched;
use std::alloc::Global;
use values::{count, flag, job, start};

/// What the program is asked to do.
#[derive(Clone, Copy, Debug, PartialEq, Eq)]
pub enum Job {
    /// To run a script over the pools.
    Run,
    /// To read a script alone.
    Check,
    /// To print what the pools hold.
    Show,
    /// To print a generated script.
    Gen,
}

/// What the words of the command line ask for.
#[derive(Clone, Copy, Debug, PartialEq, Eq)]
pub struct Invocation {
    pub job: Job,
    /// Whether the path of each operation is printed after its answer.
    pub paths: bool,
    /// Whether the acts are printed after all lines.
    pub history: bool,
    /// Whether one line of counts stands in place of the lines.
    pub summary: bool,
    /// How many lines to generate: at most 1,000,000, and 1,000 where the words give none.
    pub count: u32,
    /// The start of the generator: 1 where the words give none.
    pub start: u64,
}

/// Why words give no invocation.
#[derive(Clone, Copy, Debug, PartialEq, Eq)]
pub enum BadWords {
    /// The command does not take them, or the job is none of the four.
    Refused,
    /// Memory ran out.
    NoMemory,
}

/// What the words after the program's name ask for.
pub fn read_words(alloc: Global, words: &[String]) -> Result<Invocation, BadWords>
    ensures taken { IfOk result (λ i. invocation_of (map string_bytes words.now) ≡ Some i) }
    ensures refused { IsErrOf result BadWords.Refused
        → invocation_of (map string_bytes words.now) ≡ None }
    ensures limit { IfOk result (λ i. i.count ≤ 1000000) }
{
    let matches = match matched(alloc, words) {
        Ok(matches) => matches,
        Err(fault) => return Err(fault),
    };
    match job(&matches) {
        Some(job) => Ok(Invocation {
            job,
            paths: flag(&matches, "paths"),
            history: flag(&matches, "history"),
            summary: flag(&matches, "summary"),
            count: count(&matches),
            start: start(&matches),
        }),
        None => Err(BadWords::Refused),
    }
}
