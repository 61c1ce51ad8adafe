//! The leaves, run over values that were worked out elsewhere: published hashes, blocks taken and
//! given by hand, generated scripts. The promises themselves are proved.
#![tactic(auto)]

#[cfg(test)]
mod blocks;
#[cfg(test)]
mod hashes;
#[cfg(test)]
mod scripts;
