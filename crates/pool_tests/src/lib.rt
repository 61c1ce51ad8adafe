//! The base pool over logs on disks in memory, run: what messages of one epoch and another are
//! answered and leave, what stands after a stop or a fault at each call of the disk, and damaged
//! values. The promises themselves are proved over any store.
#![tactic(auto)]

#[cfg(test)]
mod rows;
#[cfg(test)]
mod stops;
#[cfg(test)]
mod tools;
