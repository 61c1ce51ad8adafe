//! Single lines as commands.
//!
//! The verb says which fields follow. The first word from the left that does not fit is the fault.
ghost use Rattle.std.specs.Prelude.{◌≡◌};
ghost use Rattle.std.specs.List.{list_any};
ghost use Rattle.script_lang.specs.Outcomes.{IsParse};
ghost use Rattle.script_lang.specs.Reading.{begin_by, client_at, ended, get_line, is_odd_byte, line_at, line_by, line_from, line_name_at, line_number_at, mode_line, mode_of, moment_of, op_line, rest_of, stop_by, time_line};
ghost use Rattle.script_lang.specs.declared.line.Line.TheVariants as line;

use crate::Line;
use crate::cause::{Cause, LineFault};
use crate::fields::{client_in, name_in, number_in};
use crate::left_out::{unknown, unknown_mode};
use crate::sub_ops::read_vector;
use crate::verbs::LineVerb;
use crate::words::Words;
use obj_model::{Mode, Name, Req};
use std::alloc::Global;

/// Whether a byte of the line may stand in no line.
pub(crate) fn has_odd_byte(text: &[u8]) -> bool
    ensures { result ≡ list_any is_odd_byte text.now }
{
    text.iter().any(is_odd_byte)
}

fn is_odd_byte(byte: &u8) -> bool
    ensures { result ≡ is_odd_byte byte.now }
{
    *byte < b' ' || *byte > b'~'
}

/// The command of these words, which sets no moment below `least`.
pub(crate) fn read_words(alloc: Global, least: u64, words: &mut Words) -> Result<Line, LineFault>
    ensures { IsParse result (line_at least words.old) }
{
    match words.word() {
        Some(word) => read_from(alloc, least, word, words),
        None => Err(LineFault::Wrong(Cause::Words)),
    }
}

// The command that begins with this word.
fn read_from(alloc: Global, least: u64, word: &[u8], words: &mut Words) -> Result<Line, LineFault>
    ensures { IsParse result (line_from least words.old word.now) }
{
    match LineVerb::of(word) {
        Some(verb) => read_by(alloc, least, verb, words),
        None => Err(unknown(alloc, word, Cause::Verb)),
    }
}

// The command of this verb.
fn read_by(alloc: Global, least: u64, verb: LineVerb, words: &mut Words) -> Result<Line, LineFault>
    ensures { IsParse result (line_by least verb words.old) }
{
    match verb {
        LineVerb::Op => read_op_line(alloc, words),
        LineVerb::Get => read_get_line(alloc, words),
        LineVerb::Flush => {
            let name = name(alloc, words)?;
            ended(Line::Flush(name), words)
        }
        LineVerb::Tryflush => {
            let name = name(alloc, words)?;
            ended(Line::Tryflush(name), words)
        }
        LineVerb::Begin => match words.word() {
            Some(word) => read_begin(alloc, word, words),
            None => Err(LineFault::Wrong(Cause::Words)),
        },
        LineVerb::Finish => {
            let name = name(alloc, words)?;
            ended(Line::Finish(name), words)
        }
        LineVerb::Evict => {
            let name = name(alloc, words)?;
            ended(Line::Evict(name), words)
        }
        LineVerb::Drain => ended(Line::Drain, words),
        LineVerb::Agent => ended(Line::Agent, words),
        LineVerb::Mode => read_mode_line(alloc, words),
        LineVerb::Time => read_time_line(least, words),
        LineVerb::Stop => match words.word() {
            Some(word) => read_stop(word, words),
            None => Err(LineFault::Wrong(Cause::Words)),
        },
        LineVerb::Par => ended(Line::Par, words),
        LineVerb::End => ended(Line::End, words),
    }
}

// The next word as a number.
fn number(words: &mut Words) -> Result<u64, LineFault>
    ensures value { IsParse result (line_number_at words.old) }
    ensures rest { words.new ≡ rest_of words.old }
{
    number_in(words.word())
}

// The next word as a client's number.
fn client(words: &mut Words) -> Result<u16, LineFault>
    ensures value { IsParse result (client_at words.old) }
    ensures rest { words.new ≡ rest_of words.old }
{
    match number(words) {
        Ok(number) => client_in(number),
        Err(fault) => Err(fault),
    }
}

// The next word as a name.
fn name(alloc: Global, words: &mut Words) -> Result<Name, LineFault>
    ensures value { IsParse result (line_name_at words.old) }
    ensures rest { words.new ≡ rest_of words.old }
{
    name_in(alloc, words.word())
}

// The command, if no word is left.
fn ended(line: Line, words: &mut Words) -> Result<Line, LineFault>
    ensures { IsParse result (ended line words.old) }
{
    match words.next() {
        None => Ok(line),
        Some(_) => Err(LineFault::Wrong(Cause::Words)),
    }
}

// The write request whose fields are the words.
fn read_op_line(alloc: Global, words: &mut Words) -> Result<Line, LineFault>
    ensures { IsParse result (op_line words.old) }
{
    let client = client(words)?;
    let tid = number(words)?;
    let name = name(alloc, words)?;
    let vector = read_vector(alloc, true, words)?;
    Ok(Line::Op(Req {
        client,
        tid,
        name,
        vector,
    }))
}

// The reading whose fields are the words.
fn read_get_line(alloc: Global, words: &mut Words) -> Result<Line, LineFault>
    ensures { IsParse result (get_line words.old) }
{
    let client = client(words)?;
    let name = name(alloc, words)?;
    let vector = read_vector(alloc, false, words)?;
    Ok(Line::Get {
        client,
        name,
        vector,
    })
}

// The beginning of a flush, by its second word.
fn read_begin(alloc: Global, word: &[u8], words: &mut Words) -> Result<Line, LineFault>
    ensures { IsParse result (begin_by words.old word.now) }
{
    if LineVerb::Flush.is(word) {
        let name = name(alloc, words)?;
        ended(Line::BeginFlush(name), words)
    } else if LineVerb::Tryflush.is(word) {
        let name = name(alloc, words)?;
        ended(Line::BeginTryflush(name), words)
    } else {
        Err(LineFault::Wrong(Cause::Verb))
    }
}

// The stop of a pool, by its second word.
fn read_stop(word: &[u8], words: &mut Words) -> Result<Line, LineFault>
    ensures { IsParse result (stop_by words.old word.now) }
{
    if word == b"cache".as_slice() {
        ended(Line::StopCache, words)
    } else if word == b"base".as_slice() {
        ended(Line::StopBase, words)
    } else {
        Err(LineFault::Wrong(Cause::Verb))
    }
}

// The mode that is set.
fn read_mode_line(alloc: Global, words: &mut Words) -> Result<Line, LineFault>
    ensures { IsParse result (mode_line words.old) }
{
    match words.word() {
        Some(word) => {
            let mode = read_mode(alloc, word)?;
            ended(Line::SetMode(mode), words)
        }
        None => Err(LineFault::Wrong(Cause::Words)),
    }
}

// The mode of a word.
#[tactic(auto, unfolding(crate::specs::Reading::mode_of))]
fn read_mode(alloc: Global, word: &[u8]) -> Result<Mode, LineFault>
    ensures { IsParse result (mode_of word.now) }
{
    if word == b"writeback".as_slice() {
        Ok(Mode::Writeback)
    } else if word == b"readproxy".as_slice() {
        Ok(Mode::Readproxy)
    } else if word == b"proxy".as_slice() {
        Ok(Mode::Proxy)
    } else {
        Err(unknown_mode(alloc, word))
    }
}

// The moment that is set, not below an earlier one.
fn read_time_line(least: u64, words: &mut Words) -> Result<Line, LineFault>
    ensures { IsParse result (time_line least words.old) }
{
    let number = number(words)?;
    let moment = not_below(least, number)?;
    ended(Line::SetTime(moment), words)
}

fn not_below(least: u64, moment: u64) -> Result<u64, LineFault>
    ensures { IsParse result (moment_of least moment) }
{
    if least <= moment {
        Ok(moment)
    } else {
        Err(LineFault::Wrong(Cause::Time))
    }
}
