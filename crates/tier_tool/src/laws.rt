//! What follows from the definition of the answers, in plain words. These calls do nothing: their
//! contracts are the laws.
ghost use Rattle.tier_tool.specs.Laws.{LaterLinesChangeNothing, RequestsMakeTheStore};
ghost use Rattle.tier_tool.specs.Laws.{TheNextRunGoesOn};

use crate::task::Numbered;

/// What lines are answered does not depend on the lines behind them.
#[tactic(auto, using(crate::proofs::Ordered::later_lines))]
pub fn later_lines_change_nothing(_before: &[Numbered], _others: &[Numbered])
    ensures { LaterLinesChangeNothing _before.now _others.now }
{}

/// Lines leave the store that their write requests leave, one after another: readings, and the
/// numbers of lines, have no part in it.
#[tactic(auto, using(crate::proofs::Ordered::requests_make))]
pub fn requests_make_the_store(_lines: &[Numbered])
    ensures { RequestsMakeTheStore _lines.now }
{}

/// A run that opens a disk which is a log goes on from the plain store that its map stands for,
/// with as much of the room used: what was left by a crash, or by the end of the run before it, is
/// what
/// the lines of the next one are answered from, and what their records come behind.
pub fn the_next_run_goes_on()
    ensures { TheNextRunGoesOn }
{}
