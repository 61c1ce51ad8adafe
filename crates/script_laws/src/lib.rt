//! Laws of the script language, in plain words: what a text says is one, and what is printed is
//! read back.
//!
//! The calls of this crate do nothing: their contracts are the laws. Each speaks of the grammar, so
//! it holds of all that `read_script` answers and of all that `print_line` puts.
#![tactic(auto)]

mod once;
mod printed;

pub use once::{fault_is_one, reading_is_one, script_has_no_fault};
pub use printed::{block_is_read_back, line_is_read_back, script_is_read_back};
