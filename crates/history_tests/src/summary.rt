//! The summary of a run: how each answer counts, and its line.
ghost use Rattle.std.specs.Prelude.{◌≡◌, ◌<◌, ◌^◌};
ghost use Rattle.report_text.specs.Counts.{lines_of};

use crate::tools::kind;
use obj_model::{Items, Mode, Why};
use report_text::{Counts, Text, Told, put_summary};
use std::alloc::Global;
use std::test::*;
use tier_chron::Answer;

// An answer and its count, and the summary of a run in which it was the only one.
const CLASSES: &str =
    "done => lines 1 done 1 refused 0 values 0 kept 0 stale 0 blocked 0 full 0 other 0
refused => lines 1 done 0 refused 1 values 0 kept 0 stale 0 blocked 0 full 0 other 0
values => lines 1 done 0 refused 0 values 1 kept 0 stale 0 blocked 0 full 0 other 0
done kept => lines 1 done 0 refused 0 values 0 kept 1 stale 0 blocked 0 full 0 other 0
refused kept => lines 1 done 0 refused 0 values 0 kept 1 stale 0 blocked 0 full 0 other 0
stale => lines 1 done 0 refused 0 values 0 kept 0 stale 1 blocked 0 full 0 other 0
blocked => lines 1 done 0 refused 0 values 0 kept 0 stale 0 blocked 1 full 0 other 0
full => lines 1 done 0 refused 0 values 0 kept 0 stale 0 blocked 0 full 1 other 0
clean => lines 1 done 0 refused 0 values 0 kept 0 stale 0 blocked 0 full 0 other 1
nomemory => lines 1 done 0 refused 0 values 0 kept 0 stale 0 blocked 0 full 0 other 1";

// Done or refused, now or earlier.
fn reply(words: &str) -> Answer {
    let (ver, at, why) = (1, 0, Why::NoEnt);
    match words {
        "done" => Answer::Done { ver, kept: false },
        "done kept" => Answer::Done { ver, kept: true },
        "refused" => Answer::Refused {
            at,
            why,
            ver,
            kept: false,
        },
        _ => Answer::Refused {
            at,
            why,
            ver,
            kept: true,
        },
    }
}

// An answer by its word.
fn answer(alloc: Global, words: &str) -> Answer {
    match words {
        "values" => Answer::Values {
            ver: 1,
            outs: Items::new(alloc),
        },
        "stale" => Answer::Stale { kept: 1 },
        "blocked" => Answer::Blocked {
            kind: kind("flush"),
            opid: 1,
        },
        "full" => Answer::Full { micro: 1_000_001 },
        "clean" => Answer::Clean,
        "nomemory" => Answer::NoMemory,
        _ => reply(words),
    }
}

// The counts of a run of one line, which was told so.
fn noted(told: &[Told<'_>]) -> Counts
    ensures { lines_of result ≡ 1 }
{
    let mut counts = Counts::new();
    counts.note(told);
    counts
}

// The same where two groups answered it.
fn noted_both<'a>(first: Told<'a>, second: Told<'a>) -> Counts
    ensures { lines_of result ≡ 1 }
{
    noted(&[first, second])
}

// Whether this is the line of the summary.
fn sums_up(alloc: Global, counts: &Counts, want: &str) -> bool
    requires { lines_of counts.now < 2 ^ 64 }
{
    let mut text = Text::new(alloc);
    let mut wanted = Text::new(alloc);
    put_summary(&mut text, counts).is_ok()
        && wanted.push(want).is_ok()
        && wanted.push("\n").is_ok()
        && text.as_slice() == wanted.as_slice()
}

// The counts of a line of one group.
fn noted_one(told: Told<'_>) -> Counts
    ensures { lines_of result ≡ 1 }
{
    noted(&[told])
}

// What one group answered.
fn told<'a>(answer: &'a Answer) -> Told<'a> {
    Told::Answered {
        answer,
        path: None,
        place: 7,
    }
}

#[test]
fn how_each_answer_counts(rt: HostRuntime) -> Result<(), Fail> {
    for row in CLASSES.lines() {
        let (words, text) = row.split_once(" => ").ok_or("a row")?;
        let answer = answer(rt.alloc(), words);
        let counts = noted_one(told(&answer));
        assert!(rt; sums_up(rt.alloc(), &counts, text), "{words}");
    }
    Ok(())
}

const OTHER: &str = "lines 1 done 0 refused 0 values 0 kept 0 stale 0 blocked 0 full 0 other 1";

#[test]
fn lines_of_groups_are_others(rt: HostRuntime) {
    let done = reply("done");
    let both = noted_both(told(&done), Told::BaseStopped);
    assert!(rt; sums_up(rt.alloc(), &both, OTHER));
    let mode = noted_one(Told::Mode { mode: Mode::Proxy });
    assert!(rt; sums_up(rt.alloc(), &mode, OTHER));
}

#[test]
fn the_line_of_a_summary(rt: HostRuntime) {
    let counts = Counts {
        done: 1,
        refused: 20,
        values: 3,
        kept: 4,
        stale: 5,
        blocked: 6,
        full: 7,
        other: 8,
    };
    let want = "lines 54 done 1 refused 20 values 3 kept 4 stale 5 blocked 6 full 7 other 8";
    assert!(rt; sums_up(rt.alloc(), &counts, want));
}
