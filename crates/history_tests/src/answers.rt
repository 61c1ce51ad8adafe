//! The texts of answers, written by hand. A row is a text whose words say which answer has it; of a
//! refusal these come apart, before an arrow.
use crate::tools::{Row, kind, mode, name, pool, says, why};
use obj_model::Name;
use std::alloc::Global;
use std::test::*;
use tier_chron::{AgentDid, Answer};

#[test]
fn done(rt: HostRuntime) {
    let own = Answer::Done {
        ver: 3,
        kept: false,
    };
    assert!(rt; says(rt.alloc(), &own, "done v3 @7"));
    let kept = Answer::Done { ver: 3, kept: true };
    assert!(rt; says(rt.alloc(), &kept, "done v3 @7 kept"));
}

// Why, at which sub-operation and at which version; and the text.
const REFUSED: &str = "exists 0 1 => refused 0 exists v1 @7
exists 0 1 => refused 0 exists v1 @7 kept
noent 1 0 => refused 1 noent v0 @7
noent 1 0 => refused 1 noent v0 @7 kept
nodata 2 9 => refused 2 nodata v9 @7
canceled 3 9 => refused 3 canceled v9 @7
range 4 9 => refused 4 range v9 @7
overflow 15 9 => refused 15 overflow v9 @7
toobig 9 10 => refused 9 toobig 4096 4097 v10 @7
toobig 9 10 => refused 9 toobig 4096 4097 v10 @7 kept";

// A refusal by these words.
fn refused(words: &str, kept: bool) -> Answer {
    let mut row = Row::new(words);
    let why = why(row.word());
    let at = u8::try_from(row.number()).unwrap_or(255);
    let ver = row.number();
    Answer::Refused { at, why, ver, kept }
}

#[test]
fn refusals(rt: HostRuntime) {
    for row in REFUSED.lines() {
        let (words, text) = row.split_once(" => ").unwrap_or(("", ""));
        let answer = refused(words, text.ends_with(" kept"));
        assert!(rt; says(rt.alloc(), &answer, text), "{text}");
    }
}

const ONE: &str = "stale 5
worn 4611686018427387904
full 1500000
flushed 2
evicted 4
dirty 3
begun 6";

// The answer of a word and a number.
fn one(word: &str, number: u64) -> Answer {
    match word {
        "stale" => Answer::Stale { kept: number },
        "worn" => Answer::Worn { limit: number },
        "full" => Answer::Full { micro: number },
        "flushed" => Answer::Flushed { seq: number },
        "evicted" => Answer::Evicted { seq: number },
        "dirty" => Answer::Dirty { seq: number },
        "begun" => Answer::Begun { opid: number },
        _ => Answer::NoMemory,
    }
}

#[test]
fn of_one_number(rt: HostRuntime) {
    for text in ONE.lines() {
        let mut row = Row::new(text);
        let answer = one(row.word(), row.number());
        assert!(rt; says(rt.alloc(), &answer, text), "{text}");
    }
}

const TWO: &str = "restarted 1 2
again 3 4
historyfull 1048576 70";

// The answer of a word and two numbers.
fn two(word: &str, first: u64, second: u64) -> Answer {
    match word {
        "restarted" => Answer::Restarted {
            was: first,
            now: second,
        },
        "again" => Answer::Again {
            flushed: first,
            now: second,
        },
        "historyfull" => Answer::HistoryFull {
            entries: first,
            bytes: second,
        },
        _ => Answer::NoMemory,
    }
}

#[test]
fn of_two_numbers(rt: HostRuntime) {
    for text in TWO.lines() {
        let mut row = Row::new(text);
        let answer = two(row.word(), row.number(), row.number());
        assert!(rt; says(rt.alloc(), &answer, text), "{text}");
    }
}

const BARE: &str = "clean
absent
nothing
drained
nomemory
agent nothing";

// The answer of a word.
fn bare(text: &str) -> Answer {
    match text {
        "clean" => Answer::Clean,
        "absent" => Answer::Absent,
        "nothing" => Answer::NoBegun,
        "drained" => Answer::Drained,
        "nomemory" => Answer::NoMemory,
        _ => Answer::Agent(AgentDid::Nothing),
    }
}

#[test]
fn of_words_alone(rt: HostRuntime) {
    for text in BARE.lines() {
        assert!(rt; says(rt.alloc(), &bare(text), text), "{text}");
    }
}

const POOLS: &str = "blocked promote 1
blocked write 2
blocked read 3
blocked flush 4
notproxy writeback
notproxy readproxy
notproxy proxy
fault cache
fault base
damaged cache 22
damaged base 0
nospace cache 40 24 63
nospace base 47 18 64";

// The answer of a word, a word of a pool, a kind or a mode, and numbers.
fn of_pool(text: &str) -> Answer {
    let mut row = Row::new(text);
    let verb = row.word();
    let word = row.word();
    let (first, second, third) = (row.number(), row.number(), row.number());
    match verb {
        "blocked" => Answer::Blocked {
            kind: kind(word),
            opid: first,
        },
        "notproxy" => Answer::NotProxy { mode: mode(word) },
        "fault" => Answer::DiskFault { pool: pool(word) },
        "damaged" => Answer::Damaged {
            pool: pool(word),
            at: first,
        },
        _ => Answer::NoSpace {
            pool: pool(word),
            used: first,
            need: second,
            limit: third,
        },
    }
}

#[test]
fn of_kinds_modes_and_pools(rt: HostRuntime) {
    for text in POOLS.lines() {
        assert!(rt; says(rt.alloc(), &of_pool(text), text), "{text}");
    }
}

#[test]
fn values_that_spell_nothing(rt: HostRuntime) -> Result<(), Fail> {
    let name = name(rt.alloc(), "n~")?;
    let pool = pool("cache");
    let answer = Answer::BadRecord { pool, name };
    assert!(rt; says(rt.alloc(), &answer, "badrecord cache n~"));
    Ok(())
}

#[test]
fn what_a_drain_left(rt: HostRuntime) -> Result<(), Fail> {
    let answer = Answer::Left {
        count: 2,
        name: name(rt.alloc(), "a")?,
        kind: kind("flush"),
        opid: 3,
    };
    assert!(rt; says(rt.alloc(), &answer, "left 2 a flush 3"));
    Ok(())
}

const TURNS: &str = "agent evicted a 1
agent flushed n~ 2
agent again a 3 4";

// What a turn of the agent did to this name, by a word and two numbers.
fn did(word: &str, name: Name, first: u64, second: u64) -> AgentDid {
    match word {
        "evicted" => AgentDid::Evicted { name, seq: first },
        "flushed" => AgentDid::Flushed { name, seq: first },
        _ => AgentDid::Again {
            name,
            flushed: first,
            now: second,
        },
    }
}

// The answer of a turn, by its text.
fn turn(alloc: Global, text: &str) -> Result<Answer, Fail> {
    let mut row = Row::new(text);
    row.word();
    let verb = row.word();
    let name = name(alloc, row.word())?;
    Ok(Answer::Agent(did(verb, name, row.number(), row.number())))
}

#[test]
fn turns_of_the_agent(rt: HostRuntime) -> Result<(), Fail> {
    for text in TURNS.lines() {
        let answer = turn(rt.alloc(), text)?;
        assert!(rt; says(rt.alloc(), &answer, text), "{text}");
    }
    Ok(())
}
