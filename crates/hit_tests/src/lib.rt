//! Hit sets and archives, run over tables that were worked out by hand or by another program. The
//! promises themselves are proved.
#![tactic(auto)]

#[cfg(test)]
mod archives;
#[cfg(test)]
mod sets;
#[cfg(test)]
mod tools;
