//! What tests with tables share: rows as texts, whose words stand apart by single spaces, and
//! names. It serves tests alone.
#![tactic(auto)]

use obj_model::Name;
use std::alloc::Global;
use std::test::Fail;

/// The words of a row that are left.
#[derive(Drop)]
pub struct Row<'a> {
    rest: &'a str,
}

impl<'a> Row<'a> {
    /// The words of this text.
    pub fn new(rest: &'a str) -> Row<'a> {
        Row { rest }
    }

    /// The next word; an empty one where none is left.
    pub fn word(&mut self) -> &'a str {
        match self.rest.split_once(' ') {
            Some((word, rest)) => {
                self.rest = rest;
                word
            }
            None => {
                let word = self.rest;
                self.rest = "";
                word
            }
        }
    }

    /// The next word, a number.
    pub fn number(&mut self) -> Result<u64, Fail> {
        Ok(self.word().parse::<u64>().ok().ok_or("a number")?)
    }

    /// The next word, a number below 2^32.
    pub fn small(&mut self) -> Result<u32, Fail> {
        Ok(self.word().parse::<u32>().ok().ok_or("a small number")?)
    }

    /// The next word, a number that is a flag: 0 or 1.
    pub fn flag(&mut self) -> Result<bool, Fail> {
        Ok(self.number()? == 1)
    }

    /// Whether no word is left.
    pub fn is_empty(&self) -> bool {
        self.rest.is_empty()
    }
}

/// The name of these bytes.
pub fn name(alloc: Global, text: &str) -> Result<Name, Fail> {
    let bytes = Vec::from_slice(alloc, text.as_bytes())?;
    Ok(Name::new(bytes).ok().ok_or("a name")?)
}
