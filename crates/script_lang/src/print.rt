//! The printer of lines: each line as its one spelling.
ghost use Rattle.std.specs.Prelude.{◌≡◌, ◌++◌, ◌∷◌, [], OnOk, codes, decimal};
ghost use Rattle.std.specs.List.{join_with_byte};
ghost use Rattle.script_lang.specs.Printing.{spaced};
ghost use Rattle.script_lang.specs.Spelling.{mode_word, spelling, vector_words};
ghost use Rattle.script_lang.specs.Verbs.{line_word};
ghost use Rattle.script_lang.specs.declared.line.Line.TheVariants as line;
ghost use Rattle.script_lang.specs.declared.verbs.LineVerb.TheVariants as verb;

use crate::print_ops::{put_name, put_number, put_ops};
use crate::verbs::LineVerb;
use crate::{Line, Text};
use obj_model::{Mode, Name, NoMemory, Req, Vector};

/// Puts the spelling of a line behind a text, without a newline. Where the line's numbers are at
/// most 2^62, its client 1 to 256, and its vector writes in an `op` and does not in a `get`, the
/// spelling reads as that line again.
pub fn print_line(text: &mut Text, line: &Line) -> Result<(), NoMemory>
    ensures { OnOk result (text.new ≡ text.old ++ spelling line.now) }
{
    match line {
        Line::Op(req) => put_request(text, req),
        Line::Get {
            client,
            name,
            vector,
        } => put_reading(text, *client, name, vector),
        Line::Flush(name) => put_named(text, LineVerb::Flush, name),
        Line::Tryflush(name) => put_named(text, LineVerb::Tryflush, name),
        Line::BeginFlush(name) => put_begin(text, LineVerb::Flush, name),
        Line::BeginTryflush(name) => put_begin(text, LineVerb::Tryflush, name),
        Line::Finish(name) => put_named(text, LineVerb::Finish, name),
        Line::Evict(name) => put_named(text, LineVerb::Evict, name),
        Line::Drain => text.push(LineVerb::Drain.word()),
        Line::Agent => text.push(LineVerb::Agent.word()),
        Line::SetMode(mode) => put_two(text, LineVerb::Mode, mode_word(*mode)),
        Line::SetTime(moment) => put_numbered(text, LineVerb::Time, *moment),
        Line::StopCache => put_two(text, LineVerb::Stop, "cache"),
        Line::StopBase => put_two(text, LineVerb::Stop, "base"),
        Line::Par => text.push(LineVerb::Par.word()),
        Line::End => text.push(LineVerb::End.word()),
    }
}

/// The word of a mode.
pub fn mode_word(mode: Mode) -> &'static str
    ensures { result.now ≡ mode_word mode }
{
    match mode {
        Mode::Writeback => "writeback",
        Mode::Readproxy => "readproxy",
        Mode::Proxy => "proxy",
    }
}

// A request.
fn put_request(text: &mut Text, req: &Req) -> Result<(), NoMemory>
    ensures { OnOk result (text.new ≡ text.old ++ spelling (line.Op req.now)) }
{
    put_numbered(text, LineVerb::Op, u64::from(req.client))?;
    put_number(text, req.tid)?;
    put_addressed(text, &req.name, &req.vector)
}

// A reading.
fn put_reading(text: &mut Text, client: u16, name: &Name, vector: &Vector) -> Result<(), NoMemory>
    ensures { OnOk result (text.new ≡ text.old ++ spelling (line.Get client name.now vector.now)) }
{
    put_numbered(text, LineVerb::Get, u64::from(client))?;
    put_addressed(text, name, vector)
}

// A name and the sub-operations on it, behind a space.
fn put_addressed(text: &mut Text, name: &Name, vector: &Vector) -> Result<(), NoMemory>
    ensures { OnOk result (text.new ≡ text.old
        ++ spaced (join_with_byte 0x20 (name.now ∷ vector_words vector.now))) }
{
    put_name(text, name)?;
    put_ops(text, vector.ops())
}

// The beginning of a flush.
fn put_begin(text: &mut Text, second: LineVerb, name: &Name) -> Result<(), NoMemory>
    ensures { OnOk result (text.new ≡ text.old
        ++ join_with_byte 0x20 (line_word verb.Begin ∷ line_word second ∷ name.now ∷ [])) }
{
    put_two(text, LineVerb::Begin, second.word())?;
    put_name(text, name)
}

// A verb and a name.
fn put_named(text: &mut Text, first: LineVerb, name: &Name) -> Result<(), NoMemory>
    ensures { OnOk result (text.new ≡ text.old
        ++ join_with_byte 0x20 (line_word first ∷ name.now ∷ [])) }
{
    text.push(first.word())?;
    put_name(text, name)
}

// A verb and a number.
fn put_numbered(text: &mut Text, first: LineVerb, number: u64) -> Result<(), NoMemory>
    ensures { OnOk result (text.new ≡ text.old
        ++ join_with_byte 0x20 (line_word first ∷ decimal number ∷ [])) }
{
    text.push(first.word())?;
    put_number(text, number)
}

// A verb and another word.
fn put_two(text: &mut Text, first: LineVerb, second: &str) -> Result<(), NoMemory>
    ensures { OnOk result (text.new ≡ text.old
        ++ join_with_byte 0x20 (line_word first ∷ second.now ∷ [])) }
{
    text.push(first.word())?;
    text.push(" ")?;
    text.push(second)
}
