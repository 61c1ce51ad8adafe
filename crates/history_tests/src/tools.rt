//! What the tables share: rows as texts, whose words stand apart by single spaces; small values.
use obj_model::{Bytes, Kind, Mode, Name, Obj, PairMap, Pool, Why};
use report_text::{Text, put_answer};
use std::alloc::Global;
use std::test::Fail;
use tier_chron::Answer;

/// The words of a row that are left.
#[derive(Drop)]
pub struct Row<'a> {
    rest: &'a str,
}

impl<'a> Row<'a> {
    pub fn new(rest: &'a str) -> Row<'a> {
        Row { rest }
    }

    /// The next word; an empty one where none is left.
    pub fn word(&mut self) -> &'a str {
        let (word, rest) = self.rest.split_once(' ').unwrap_or((self.rest, ""));
        self.rest = rest;
        word
    }

    /// The next word, a number; 0 where it is none.
    pub fn number(&mut self) -> u64 {
        self.word().parse::<u64>().unwrap_or(0)
    }
}

/// Whether this is the text of an answer at place 7.
pub fn says(alloc: Global, answer: &Answer, want: &str) -> bool {
    let mut text = Text::new(alloc);
    put_answer(&mut text, answer, 7).is_ok() && text.as_slice() == want.as_bytes()
}

/// A name of these bytes.
pub fn name(alloc: Global, word: &str) -> Result<Name, Fail> {
    let bytes = Vec::from_slice(alloc, word.as_bytes())?;
    Ok(Name::new(bytes).ok().ok_or("a name")?)
}

/// These bytes.
pub fn bytes(alloc: Global, word: &str) -> Result<Bytes, Fail> {
    Ok(Bytes::from_vec(Vec::from_slice(alloc, word.as_bytes())?))
}

// A table of these keys, each with a value of 2 bytes.
fn table(alloc: Global, keys: &str) -> Result<PairMap, Fail> {
    let mut table = PairMap::new(alloc);
    for key in keys.split(' ') {
        table.insert(name(alloc, key)?, bytes(alloc, "vw")?)?;
    }
    Ok(table)
}

/// An object of 3 bytes, with an attribute of 3 and two entries of 3 and 4, keys and all.
pub fn object(alloc: Global) -> Result<Obj, Fail> {
    let body = bytes(alloc, "abc")?;
    let attrs = table(alloc, "k")?;
    let omap = table(alloc, "k ll")?;
    Ok(Obj { body, attrs, omap })
}

/// A pool by its word.
pub fn pool(word: &str) -> Pool {
    match word {
        "cache" => Pool::Cache,
        _ => Pool::Base,
    }
}

/// A kind of unfinished work by its word.
pub fn kind(word: &str) -> Kind {
    match word {
        "promote" => Kind::Promote,
        "write" => Kind::Write,
        "read" => Kind::Read,
        _ => Kind::Flush,
    }
}

/// A mode by its word.
pub fn mode(word: &str) -> Mode {
    match word {
        "writeback" => Mode::Writeback,
        "readproxy" => Mode::Readproxy,
        _ => Mode::Proxy,
    }
}

/// Why something is refused, by its word.
pub fn why(word: &str) -> Why {
    match word {
        "exists" => Why::Exists,
        "noent" => Why::NoEnt,
        "nodata" => Why::NoData,
        "canceled" => Why::Canceled,
        "range" => Why::Range,
        "overflow" => Why::Overflow,
        _ => Why::TooBig {
            limit: 4096,
            asked: 4097,
        },
    }
}
