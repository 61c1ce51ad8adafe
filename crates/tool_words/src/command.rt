//! The command: one positional, three flags and two options, and the parse of words by it.
ghost use Rattle.std.specs.Prelude.{◌≡◌, false, map, string_bytes, IfOk, IsErrOf, []};
ghost use Rattle.clap.specs.Words.{rule_of, app_of, kind_of, fault_of};
ghost use Rattle.tool_words.specs.Words.{job_rule, flag_rule, number_rule, tool};
ghost use Rattle.tool_words.specs.Steps.{IsReading, told_as};

use crate::BadWords;
use clap::builder::ValueParser;
use clap::error::ErrorKind;
use clap::{Arg, ArgAction, ArgMatches, Command, Error};
use std::alloc::{AllocError, Global};

// The most lines that may be asked for.
const COUNT_LIMIT: u64 = 1_000_000;

fn job<'a>(alloc: Global) -> Arg<'a>
    ensures rule { rule_of result ≡ job_rule }
    ensures local { result.global ≡ false }
{
    Arg::new(alloc, "job").required(true).action(ArgAction::Set)
}

fn flag<'a>(alloc: Global, name: &'a str) -> Arg<'a>
    ensures rule { rule_of result ≡ flag_rule name.entry.now }
    ensures local { result.global ≡ false }
{
    Arg::new(alloc, name)
        .long(name)
        .action(ArgAction::SetTrue)
        .value_parser(ValueParser::Bool)
}

// An option that takes a whole number of at most `most`.
fn number<'a>(alloc: Global, name: &'a str, most: u64) -> Arg<'a>
    ensures rule { rule_of result ≡ number_rule name.entry.now most }
    ensures local { result.global ≡ false }
{
    Arg::new(alloc, name)
        .long(name)
        .action(ArgAction::Set)
        .value_parser(ValueParser::Unsigned(0, most))
}

// The command of the program.
fn command<'a>(alloc: Global) -> Result<Command<'a>, AllocError>
    ensures { IfOk result (λ c. app_of c ≡ tool) }
{
    Command::new(alloc, "rados_tier")
        .no_binary_name(true)
        .arg(job(alloc))?
        .arg(flag(alloc, "paths"))?
        .arg(flag(alloc, "history"))?
        .arg(flag(alloc, "summary"))?
        .arg(number(alloc, "count", COUNT_LIMIT))?
        .arg(number(alloc, "start", u64::MAX))
}

// Want of memory stays what it is; an error of any other kind, help among them, is a refusal.
fn fault_from(error: Error) -> BadWords
    ensures { result ≡ told_as (kind_of error) }
{
    match error.kind() {
        ErrorKind::OutOfMemory => BadWords::NoMemory,
        _ => BadWords::Refused,
    }
}

/// What the command reads of the words.
pub fn matched<'a>(alloc: Global, words: &'a [String]) -> Result<ArgMatches<'a>, BadWords>
    ensures taken { IfOk result (IsReading (map string_bytes words.entry.now)) }
    ensures refused { IsErrOf result BadWords.Refused
        → ¬ (fault_of tool (map string_bytes words.entry.now) ≡ []) }
{
    let Ok(command) = command(alloc) else {
        return Err(BadWords::NoMemory);
    };
    match command.try_get_matches_from(words) {
        Ok(matches) => Ok(matches),
        Err(error) => Err(fault_from(error)),
    }
}
