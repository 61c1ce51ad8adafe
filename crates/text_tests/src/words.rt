//! Words of the command line that were worked out by hand: what they ask for, and the refused.
use std::alloc::Global;
use std::test::*;
use tool_words::{BadWords, Invocation, Job, read_words};

// What the words ask for, which stand apart by single spaces; no words where the text is empty.
fn asked(alloc: Global, text: &str) -> Result<Result<Invocation, BadWords>, Fail> {
    let mut words = Vec::new(alloc);
    for word in text.split(' ') {
        words.push(String::from_str(alloc, word)?)?;
    }
    if text.is_empty() {
        words.clear();
    }
    Ok(read_words(alloc, words.as_slice()))
}

// Whether this is what is asked for, with each flag as a letter of `flags`.
fn is_asked(
    found: Result<Invocation, BadWords>,
    job: Job,
    flags: &str,
    count: u32,
    start: u64,
) -> bool {
    let Ok(invocation) = found else {
        return false;
    };
    invocation.job == job
        && invocation.paths == flags.contains('p')
        && invocation.history == flags.contains('h')
        && invocation.summary == flags.contains('s')
        && invocation.count == count
        && invocation.start == start
}

#[test]
fn taken(rt: HostRuntime) -> Result<(), Fail> {
    let alloc = rt.alloc();
    let cases: [(&str, Job, &str, u32, u64); 32] = [
        ("run", Job::Run, "", 1000, 1),
        ("check", Job::Check, "", 1000, 1),
        ("show", Job::Show, "", 1000, 1),
        ("gen", Job::Gen, "", 1000, 1),
        ("run --paths", Job::Run, "p", 1000, 1),
        ("run --history", Job::Run, "h", 1000, 1),
        ("run --summary", Job::Run, "s", 1000, 1),
        ("--paths run --summary", Job::Run, "ps", 1000, 1),
        (
            "--summary --history --paths show",
            Job::Show,
            "phs",
            1000,
            1,
        ),
        ("gen --count 7", Job::Gen, "", 7, 1),
        ("--count 7 gen", Job::Gen, "", 7, 1),
        ("gen --count=5", Job::Gen, "", 5, 1),
        ("gen --count 0", Job::Gen, "", 0, 1),
        ("gen --count 1000", Job::Gen, "", 1000, 1),
        ("gen --count 1000000", Job::Gen, "", 1_000_000, 1),
        ("gen --count 007", Job::Gen, "", 7, 1),
        ("gen --count +7", Job::Gen, "", 7, 1),
        ("gen --count=+007", Job::Gen, "", 7, 1),
        (
            "gen --count 0000000000000000000000000001000000",
            Job::Gen,
            "",
            1_000_000,
            1,
        ),
        ("gen --start 9", Job::Gen, "", 1000, 9),
        ("gen --start=0", Job::Gen, "", 1000, 0),
        ("gen --start +3", Job::Gen, "", 1000, 3),
        (
            "gen --start 18446744073709551615",
            Job::Gen,
            "",
            1000,
            u64::MAX,
        ),
        ("gen --count 3 --start 4", Job::Gen, "", 3, 4),
        ("gen --start 4 --count 3", Job::Gen, "", 3, 4),
        ("check --count 3 --start 4 --history", Job::Check, "h", 3, 4),
        ("-- run", Job::Run, "", 1000, 1),
        ("run --", Job::Run, "", 1000, 1),
        ("--paths -- run", Job::Run, "p", 1000, 1),
        ("--count=5 -- gen", Job::Gen, "", 5, 1),
        ("--count 5 -- gen", Job::Gen, "", 5, 1),
        (
            "run --paths --history --summary --count 1 --start 2",
            Job::Run,
            "phs",
            1,
            2,
        ),
    ];
    for (text, job, flags, count, start) in cases {
        assert!(rt;
            is_asked(asked(alloc, text)?, job, flags, count, start),
            "{text}"
        );
    }
    Ok(())
}

#[test]
fn refused(rt: HostRuntime) -> Result<(), Fail> {
    let alloc = rt.alloc();
    let cases: [&str; 58] = [
        "",
        " ",
        "--",
        "--paths",
        "--count 5",
        "fly",
        "RUN",
        "Run",
        "runs",
        "ru",
        "r",
        "help",
        "run check",
        "run run",
        "run -- check",
        "-- run check",
        "-- --paths run",
        "-- --paths",
        "run fly",
        "-h",
        "--help",
        "run -h",
        "run --help",
        "--help run",
        "-V",
        "--version",
        "run -p",
        "run -",
        "-",
        "run --fly",
        "run --path",
        "run --Paths",
        "run --PATHS",
        "run -paths",
        "run --paths --paths",
        "run --history --summary --history",
        "run --summary --summary",
        "run --paths=1",
        "run --paths=true",
        "run --paths=",
        "run --paths true",
        "gen --count",
        "gen --count=",
        "gen --count -1",
        "gen --count=-1",
        "gen --count=-0",
        "gen --count 1000001",
        "gen --count=1000001",
        "gen --count 18446744073709551616",
        "gen --count x",
        "gen --count 5x",
        "gen --count 0x5",
        "gen --count 5.0",
        "gen --count ++5",
        "gen --count 5 --count 5",
        "gen --start 18446744073709551616",
        "gen --start -1",
        "gen --start 1 --start=2",
    ];
    for text in cases {
        assert_eq!(rt; asked(alloc, text)?, Err(BadWords::Refused), "{text}");
    }
    Ok(())
}
