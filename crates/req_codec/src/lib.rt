//! The one spelling of requests as bytes.
//!
//! The writer gives the spelling of a request, and the reader gives the request that the bytes, all
//! of them, spell.
//!
//! Its page is `docs/formats/records.md`.
#![tactic(auto)]

mod laws;
mod ops;
mod reading;
mod writing;

pub use laws::req_spellings;
pub use reading::read_req;
pub use writing::write_req;
