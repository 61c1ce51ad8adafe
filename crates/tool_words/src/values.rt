//! The job, the flags and the numbers of a parse.
ghost use Rattle.std.specs.Prelude.{◌≡◌, ◌≤◌, codes, option_and_then};
ghost use Rattle.clap.specs.Words.{first_value, one_text, found_of};
ghost use Rattle.clap.specs.declared.builder.value_parser.ValueParser.TheVariants as parser;
ghost use Rattle.tool_words.specs.Words.{is_on, job_named, number_or};
ghost use Rattle.tool_words.specs.Steps.{Passes};

use crate::Job;
use clap::ArgMatches;

// How many lines are generated where the words say nothing of it.
const COUNT: u32 = 1000;

// The start of the generator where the words say nothing of it.
const START: u64 = 1;

// The job of this name.
fn job_of(name: &str) -> Option<Job>
    ensures { result ≡ job_named name.entry.now }
{
    match name {
        "run" => Some(Job::Run),
        "check" => Some(Job::Check),
        "show" => Some(Job::Show),
        "gen" => Some(Job::Gen),
        _ => None,
    }
}

/// The job that was given, if it is one of the four.
pub fn job(matches: &ArgMatches<'_>) -> Option<Job>
    ensures { result
        ≡ option_and_then job_named (first_value (found_of matches.now) (codes "job")) }
{
    match matches.get_str("job") {
        Some(name) => job_of(name),
        None => None,
    }
}

/// Whether the flag was given.
pub fn flag(matches: &ArgMatches<'_>, name: &str) -> bool
    ensures { Passes parser.Bool name.now matches.now
        → result ≡ is_on (one_text (found_of matches.now) name.now) }
{
    matches.get_flag(name)
}

/// The count that was given, or the default.
pub fn count(matches: &ArgMatches<'_>) -> u32
    ensures value { Passes (parser.Unsigned 0 1000000) (codes "count") matches.now
        → result ≡ number_or 1000 (one_text (found_of matches.now) (codes "count")) }
    ensures limit { Passes (parser.Unsigned 0 1000000) (codes "count") matches.now
        → result ≤ 1000000 }
{
    matches.get_one::<u32>("count").unwrap_or(COUNT)
}

/// The start that was given, or the default.
pub fn start(matches: &ArgMatches<'_>) -> u64
    ensures { Passes (parser.Unsigned 0 18446744073709551615) (codes "start") matches.now
        → result ≡ number_or 1 (one_text (found_of matches.now) (codes "start")) }
{
    matches.get_one::<u64>("start").unwrap_or(START)
}
