//! How many lines were answered how.
ghost use Rattle.std.specs.Prelude.{◌≡◌, ◌++◌, ◌+◌, ◌-◌, ◌<◌, ◌^◌, OnOk};
ghost use Rattle.report_text.specs.Counts.{class_of, class_of_answer, class_of_told, counted, lines_of, no_counts, objects_text, others_text, summary_text};
ghost use Rattle.report_text.specs.Words.{number_text};

use crate::words::put_number;
use crate::{Text, Told};
use obj_model::NoMemory;
use tier_chron::Answer;

/// How a line counts in the summary of a run.
#[derive(Clone, Copy, Debug, PartialEq, Eq)]
pub enum Class {
    Done,
    Refused,
    Values,
    /// Done or refused, by an act of before.
    Kept,
    Stale,
    Blocked,
    Full,
    /// All other answers, and all lines that each group answers.
    Other,
}

/// How many lines were answered how.
#[derive(Clone, Copy, Debug, PartialEq, Eq)]
pub struct Counts {
    pub done: u64,
    pub refused: u64,
    pub values: u64,
    pub kept: u64,
    pub stale: u64,
    pub blocked: u64,
    pub full: u64,
    pub other: u64,
}

impl Counts {
    /// No line.
    pub fn new() -> Counts
        ensures { result ≡ no_counts }
    {
        Counts {
            done: 0,
            refused: 0,
            values: 0,
            kept: 0,
            stale: 0,
            blocked: 0,
            full: 0,
            other: 0,
        }
    }

    /// Counts one more line, by what it was told.
    pub fn note(&mut self, told: &[Told<'_>])
        requires { lines_of self.old < 2 ^ 64 - 1 }
        ensures counted { self.new ≡ counted (class_of told.now) self.old }
        ensures one_more { lines_of self.new ≡ lines_of self.old + 1 }
    {
        match class_of(told) {
            Class::Done => self.done += 1,
            Class::Refused => self.refused += 1,
            Class::Values => self.values += 1,
            Class::Kept => self.kept += 1,
            Class::Stale => self.stale += 1,
            Class::Blocked => self.blocked += 1,
            Class::Full => self.full += 1,
            Class::Other => self.other += 1,
        }
    }

    // All lines.
    fn lines(&self) -> u64
        requires { lines_of self.now < 2 ^ 64 }
        ensures { result ≡ lines_of self.now }
    {
        self.done
            + self.refused
            + self.values
            + self.kept
            + self.stale
            + self.blocked
            + self.full
            + self.other
    }
}

/// Puts the summary of a run behind a text: how many lines were answered, and how many of them how.
pub fn put_summary(text: &mut Text, counts: &Counts) -> Result<(), NoMemory>
    requires { lines_of counts.now < 2 ^ 64 }
    ensures { OnOk result (text.new ≡ text.old ++ summary_text counts.now) }
{
    put_count(text, "lines", counts.lines())?;
    put_objects(text, counts)?;
    put_others(text, counts)?;
    text.push("\n")
}

// The counts of answers that tell of objects.
fn put_objects(text: &mut Text, counts: &Counts) -> Result<(), NoMemory>
    ensures { OnOk result (text.new ≡ text.old ++ objects_text counts.now) }
{
    put_count(text, " done", counts.done)?;
    put_count(text, " refused", counts.refused)?;
    put_count(text, " values", counts.values)?;
    put_count(text, " kept", counts.kept)
}

// The counts of all others.
fn put_others(text: &mut Text, counts: &Counts) -> Result<(), NoMemory>
    ensures { OnOk result (text.new ≡ text.old ++ others_text counts.now) }
{
    put_count(text, " stale", counts.stale)?;
    put_count(text, " blocked", counts.blocked)?;
    put_count(text, " full", counts.full)?;
    put_count(text, " other", counts.other)
}

// A word and its count.
fn put_count(text: &mut Text, word: &str, count: u64) -> Result<(), NoMemory>
    ensures { OnOk result (text.new ≡ text.old ++ word.now ++ number_text count) }
{
    text.push(word)?;
    put_number(text, count)
}

// How a line counts.
fn class_of(told: &[Told<'_>]) -> Class
    ensures { result ≡ class_of told.now }
{
    match told {
        [only] => class_of_told(only),
        _ => Class::Other,
    }
}

// How what one group told counts.
fn class_of_told(told: &Told<'_>) -> Class
    ensures { result ≡ class_of_told told.now }
{
    match told {
        Told::Answered { answer, .. } => class_of_answer(answer),
        _ => Class::Other,
    }
}

// How an answer counts.
fn class_of_answer(answer: &Answer) -> Class
    ensures { result ≡ class_of_answer answer.now }
{
    match answer {
        Answer::Done { kept: false, .. } => Class::Done,
        Answer::Refused { kept: false, .. } => Class::Refused,
        Answer::Done { .. } | Answer::Refused { .. } => Class::Kept,
        Answer::Values { .. } => Class::Values,
        Answer::Stale { .. } => Class::Stale,
        Answer::Blocked { .. } => Class::Blocked,
        Answer::Full { .. } => Class::Full,
        _ => Class::Other,
    }
}
