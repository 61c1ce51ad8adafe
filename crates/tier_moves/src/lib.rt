//! A client's call begins on a group.
//!
//! A call is entered and served, turned away, or told why not, in one step: what comes of it, and
//! which outcome comes when, is a relation by cases (`specs/Begins.antt`), made of what the methods
//! of the group promise. Whatever comes of it, the group has made one step of a run.
#![tactic(auto)]

mod asking;
mod beginning;
mod begun;
mod ending;
mod laws;
mod serving;
mod standing;
mod turning;
mod ways;

pub use asking::{copy_ask, is_lawful};
pub use beginning::client_begin;
pub use begun::{Begun, Unbuilt};
pub use laws::followed_modes_tell;
