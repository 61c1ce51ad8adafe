//! A small pair of pools over maps in memory, whose steps are moves of the protocol and nothing
//! else: what the layers above do with messages and disks, here without either. A body that breaks
//! a rule of the protocol leaves a pair that is not sound, and is refused.
#![tactic(auto)]

mod asking;
mod pair;
mod starting;
mod writing_back;

pub use pair::SmallPair;
