//! The parts that decide, run over tables that were worked out by hand or by another program: the
//! agent's modes and picks, the paths of calls, pool values. The promises themselves are proved.
#![tactic(auto)]

#[cfg(test)]
mod modes;
#[cfg(test)]
mod picks;
#[cfg(test)]
mod routes;
#[cfg(test)]
mod settings;
#[cfg(test)]
mod tools;
