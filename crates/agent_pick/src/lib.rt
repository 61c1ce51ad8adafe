//! The record that the tier agent flushes or evicts next.
//!
//! Promises that `pick` is the first row that qualifies in the cyclic order of names behind the
//! cursor, over any rows, modes and pool values, and that it answers nothing exactly where none
//! qualifies.
//!
//! Where neither age nor temperature decides, a `PickIndex` of names gives the same without a pass
//! over rows (`indexed_picks`), and stays the index of the rows at each change of one row.
#![tactic(auto)]

mod index;
mod laws;
mod picking;
mod row;
mod temperatures;

pub use index::{PickIndex, is_plain};
pub use laws::{busy_keeps, drops_keep, indexed_picks, puts_keep};
pub use picking::{Chosen, pick};
pub use row::{Row, Rule};
