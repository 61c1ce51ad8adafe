//! The reader of scripts.
ghost use Rattle.std.specs.Prelude.{◌≡◌, ◌≤◌, [], ◌∷◌, ◌++◌, length, MatchResult};
ghost use Rattle.script_lang.specs.declared.cause.ScriptFault.TheVariants.{NoMemory};
ghost use Rattle.script_lang.specs.Contexts.{moved, start};
ghost use Rattle.script_lang.specs.Outcomes.{Advances, Halts, Shows, IsParse, outcome};
ghost use Rattle.script_lang.specs.Reading.{line_of};
ghost use Rattle.script_lang.specs.Scripts.{Explains, IsScript, lines_of};

use crate::cause::{Cause, LineFault, ScriptFault};
use crate::context::Context;
use crate::lines::{has_odd_byte, read_words};
use crate::split::{first_line, has_more_lines, is_passed};
use crate::words::Words;
use crate::{Line, Numbered};
use std::alloc::Global;

/// The most bytes of a script.
pub const LENGTH_LIMIT: usize = 268_435_456;

/// The most lines of a script, blank lines and comments among them.
pub const LINES_LIMIT: usize = 1_000_000;

/// Reads a whole script. It takes time and memory in proportion to the text.
pub fn read_script(alloc: Global, bytes: &[u8]) -> Result<Vec<Numbered>, ScriptFault>
    ensures { MatchResult result
        (λ lines. IsScript bytes.now lines.items)
        (λ fault. Explains bytes.now fault) }
{
    if bytes.len() > LENGTH_LIMIT {
        return Err(ScriptFault::Bad {
            line: 0,
            cause: Cause::Long,
        });
    }
    if has_more_lines(bytes, LINES_LIMIT) {
        return Err(ScriptFault::Bad {
            line: 0,
            cause: Cause::Lines,
        });
    }
    read_lines(alloc, bytes)
}

// Reads all lines, up to the first wrong one.
fn read_lines(alloc: Global, text: &[u8]) -> Result<Vec<Numbered>, ScriptFault>
    requires { length (lines_of text.now) ≤ 1000000 }
    ensures { MatchResult result
        (λ lines. outcome start 1 (lines_of text.now) ≡ Ok lines.items)
        (λ fault. Shows fault (outcome start 1 (lines_of text.now))) }
{
    let mut lines = Vec::new(alloc);
    let mut context = Context::start();
    let mut number = 0u32;
    let mut rest = text;
    while !rest.is_empty() {
        let (line, others) = first_line(rest);
        number += 1;
        read_next(alloc, &mut lines, &mut context, number, line, others)?;
        rest = others;
    }
    Ok(lines)
}

// Reads the line of this number, and puts its command behind the others if it is not passed over.
#[tactic(auto, using(crate::proofs::Steps::advances_passed, crate::proofs::Steps::advances_line, crate::proofs::Steps::halts_wrong))]
fn read_next(
    alloc: Global,
    lines: &mut Vec<Numbered>,
    context: &mut Context,
    number: u32,
    text: &[u8],
    behind: &[u8],
) -> Result<(), ScriptFault>
    ensures { MatchResult result
        (λ _. Advances lines.old.items lines.new.items context.old context.new number text.now
        (lines_of behind.now))
        (λ fault. Halts fault lines.old.items context.old number text.now (lines_of behind.now)) }
{
    if is_passed(text) {
        return Ok(());
    }
    match read_line(alloc, context, text, behind) {
        Ok(line) => push_line(alloc, lines, context, number, line),
        Err(LineFault::Wrong(cause)) => Err(ScriptFault::Bad {
            line: number,
            cause,
        }),
        Err(LineFault::NoMemory) => Err(ScriptFault::NoMemory),
    }
}

// The command of a line, given without its newline, which is not passed over.
#[tactic(auto, unfolding(crate::specs::Reading::line_of))]
fn read_line(
    alloc: Global,
    context: &Context,
    text: &[u8],
    behind: &[u8],
) -> Result<Line, LineFault>
    ensures { IsParse result (line_of context.now (lines_of behind.now) text.now) }
{
    if has_odd_byte(text) {
        return Err(LineFault::Wrong(Cause::Byte));
    }
    let line = read_words(alloc, context.moment(), &mut Words::new(text))?;
    if context.has_place_for(&line, behind) {
        Ok(line)
    } else {
        Err(LineFault::Wrong(Cause::Par))
    }
}

// Puts the command of this number behind the others, and goes on behind it.
fn push_line(
    alloc: Global,
    lines: &mut Vec<Numbered>,
    context: &mut Context,
    number: u32,
    line: Line,
) -> Result<(), ScriptFault>
    ensures { MatchResult result
        (λ _. (lines.new.items ≡ lines.old.items ++ record { number = number; line = line } ∷ [])
        × (context.new ≡ moved context.old line))
        (λ fault. fault ≡ NoMemory) }
{
    if context.move_behind(alloc, &line).is_err() {
        return Err(ScriptFault::NoMemory);
    }
    match lines.push(Numbered { number, line }) {
        Ok(()) => Ok(()),
        Err(_) => Err(ScriptFault::NoMemory),
    }
}
