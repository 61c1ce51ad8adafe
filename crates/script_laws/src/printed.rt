//! What is printed is read back.
ghost use Rattle.script_laws.specs.Printed.{BlockIsReadBack, LineIsReadBack, ScriptIsReadBack};

use script_lang::Line;

/// A printed line that neither begins nor ends a block is a script of that line alone.
#[tactic(auto, using(crate::proofs::Rereading::line_is_read_back))]
pub fn line_is_read_back(_line: &Line)
    ensures { LineIsReadBack _line.now }
{}

/// A printed `par`, a newline and a printed `end` are a script of these two lines.
#[tactic(auto, using(crate::proofs::Rereading::block_is_read_back))]
pub fn block_is_read_back()
    ensures { BlockIsReadBack }
{}

/// Lines that may stand one behind another, printed with a newline behind each, are a script of
/// these lines, within the limits of a script.
#[tactic(auto, using(crate::proofs::Rereading::script_is_read_back))]
pub fn script_is_read_back(_lines: &[Line])
    ensures { ScriptIsReadBack _lines.now }
{}
