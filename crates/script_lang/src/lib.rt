//! The script language: what its lines say, and the one reading of a text.
//!
//! The grammar is the spelling of each line, beside where a line may stand: no moment is below an
//! earlier one, and a block has requests and readings of at most 16 clients and an end.
//! `read_script` gives lines exactly where the text is their spellings, each where it may stand,
//! and else the first line that is none, with its cause. `print_line` puts the spelling of a line.
//! `script_laws` has what follows: a text has one reading or one fault, and what is printed is read
//! back.
//!
//! Its page is `docs/formats/scripts.md`.
#![tactic(auto)]

mod cause;
mod context;
mod fields;
mod left_out;
mod line;
mod lines;
mod print;
mod print_ops;
mod read;
mod split;
mod sub_ops;
mod text;
mod values;
mod verbs;
mod words;

pub use cause::{Cause, ScriptFault};
pub use line::{Line, Numbered};
pub use print::{mode_word, print_line};
pub use read::{LENGTH_LIMIT, LINES_LIMIT, read_script};
pub use text::Text;
pub use verbs::{LineVerb, OpVerb};
