//! Unfinished work on names, run over tables that were worked out by hand. The promises themselves
//! are proved.
#![tactic(auto)]

#[cfg(test)]
mod flights;
