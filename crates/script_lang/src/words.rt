//! The words of a line, taken one after another.
//!
//! Words stand between single spaces, so two spaces in a row, or one at an end, make an empty word,
//! which counts as missing. No word is copied.
ghost use Rattle.std.specs.Prelude.{◌≡◌, ◌==◌, ◌<◌, ◌∷◌, length, IfSome};
ghost use Rattle.std.specs.Option.{option_copied};
ghost use Rattle.std.specs.List.{position};
ghost use Rattle.script_lang.specs.Reading.{words_of, words_left, first_of, rest_of, word_at, field_at, if_some, if_field};

use std::marker::Model;

/// The words of a line that are left. They are seen as the list of them.
#[derive(Drop)]
pub(crate) struct Words<'a> {
    // What is behind the last space; none behind the last word.
    rest: Option<&'a [u8]>,
}

impl<'a> Model for Words<'a> {
    ghost use Rattle.std.specs.Prelude.{List, ℕ};
    ghost use Rattle.std.specs.Option.{option_copied};
    ghost use Rattle.script_lang.specs.Reading.{words_left};

    ghost Value = { List (List ℕ) };

    ghost view = { λ w. words_left (option_copied w.rest) };
}

impl<'a> Words<'a> {
    /// All words of the line.
    pub(crate) fn new(text: &'a [u8]) -> Words<'a>
        ensures { result ≡ words_of text.now }
    {
        Words { rest: Some(text) }
    }

    /// Takes the first word that is left, empty or not.
    pub(crate) fn next(&mut self) -> Option<&'a [u8]>
        ensures word { option_copied result ≡ first_of self.old }
        ensures rest { self.new ≡ rest_of self.old }
    {
        let text = self.rest?;
        let (word, rest) = cut(text);
        self.rest = rest;
        Some(word)
    }

    /// Takes the first word that is left; an empty one is missing.
    pub(crate) fn word(&mut self) -> Option<&'a [u8]>
        ensures word { option_copied result ≡ word_at self.old }
        ensures rest { self.new ≡ rest_of self.old }
    {
        match self.next() {
            Some(word) => if_some(word),
            None => None,
        }
    }

    /// Takes the first word that is left as a field of a sub-operation, which a semicolon ends.
    pub(crate) fn field(&mut self) -> Option<&'a [u8]>
        ensures word { option_copied result ≡ field_at self.old }
        ensures rest { self.new ≡ rest_of self.old }
    {
        match self.next() {
            Some(word) => if_field(word),
            None => None,
        }
    }
}

fn if_some(word: &[u8]) -> Option<&[u8]>
    ensures { option_copied result ≡ if_some word.now }
{
    if word.is_empty() { None } else { Some(word) }
}

fn if_field(word: &[u8]) -> Option<&[u8]>
    ensures { option_copied result ≡ if_field word.now }
{
    if word == b";".as_slice() {
        None
    } else {
        if_some(word)
    }
}

// The first word, and what is behind its space.
#[tactic(auto, using(crate::proofs::Breaks::words_at_space, crate::proofs::Breaks::words_without_space))]
fn cut(text: &[u8]) -> (&[u8], Option<&[u8]>)
    ensures { words_of text.now ≡ result.0.now ∷ words_left (option_copied result.1) }
{
    match first_space(text) {
        Some(at) => (&text[..at], Some(&text[at + 1..])),
        None => (text, None),
    }
}

// Where the first space stands.
fn first_space(text: &[u8]) -> Option<usize>
    ensures place { result ≡ position (λ b. b == 0x20) text.now }
    ensures inside { IfSome result (λ at. at < length text.now) }
{
    text.iter().position(is_space)
}

fn is_space(byte: &u8) -> bool
    ensures { result ≡ (byte.now == 0x20) }
{
    *byte == b' '
}
