//! A group: a cache and a base over two stores, with one history.
//!
//! A group is seen as the plain data of `tier_view`; what always holds of it is its invariant
//! (`specs/Keeps.antt`). Each step of it is a method, in a file of its own: it promises exactly what
//! it makes of that data, and that this is a step which keeps what always holds (`Keeps` of
//! `tier_view`).
#![tactic(auto)]

mod acting;
mod acts;
mod attaching;
mod blocking;
mod calling;
mod delivering;
mod ending;
mod ends;
mod entering;
mod fencing;
mod group;
mod holding;
mod lacking;
mod lacks;
mod landing;
mod lands;
mod looking;
mod losing;
mod observing;
mod opening;
mod opening_base;
mod opening_cache;
mod parting;
mod parts;
mod promoting;
mod proxying;
mod raising;
mod reading;
mod reading_base;
mod serving;
mod stakes;
mod stopping;
mod taking;
mod telling;
mod turns;
mod working;
mod writing;

pub use attaching::{AttachFault, Setup};
pub use calling::Opened;
pub use delivering::Delivered;
pub use fencing::Heard;
pub use group::Group;
pub use holding::{BYTES_LIMIT, ENTRIES_LIMIT, Fullness};
pub use landing::Landing;
pub use opening::OpenFault;
pub use promoting::PromoteFault;
pub use raising::RaiseFault;
pub use serving::Served;
pub use tier_promote::Gathered;
pub use turns::Turn;
