//! Groups over logs on disks in memory, run: which pairs of pools can be attached as one, and what
//! is told of the others. The promises themselves are proved over any stores.
#![tactic(auto)]

#[cfg(test)]
mod attaching;
#[cfg(test)]
mod filling;
