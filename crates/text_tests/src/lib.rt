//! Scripts that were worked out by hand: what they say, their faults, and how lines are printed.
//! The promises themselves are proved.
#![tactic(auto)]

#[cfg(test)]
mod causes;
#[cfg(test)]
mod faults;
#[cfg(test)]
mod printing;
#[cfg(test)]
mod scripts;
#[cfg(test)]
mod words;
