//! The texts of what is told: answers of lines, acts, the summary of a run, and the rows of both
//! pools.
//!
//! Each text is put into a buffer that the caller reuses, and is exactly that of its definition
//! (`specs/`).
//!
//! Its page is `docs/formats/answers.md`.
#![tactic(auto)]

mod answers;
mod counts;
mod faults;
mod lines;
mod rows;
mod told;
mod words;

pub use answers::put_answer;
pub use counts::{Class, Counts, put_summary};
pub use faults::{put_accepted, put_bad_image, put_fault, put_unbuilt, put_wrong_pair};
pub use lines::{answer_text, put_act, put_call};
pub use rows::{put_base_row, put_cache_row};
pub use script_lang::Text;
pub use told::Told;
