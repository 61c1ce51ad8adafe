//! Objects, sub-operations and requests, on values that were worked out by hand from the rules:
//! each kind on an absent and on a present object, each refusal, each limit at its last allowed and
//! its first refused value. What the calls promise is proved where they are; these tables show that
//! the promises are what was meant.
#![tactic(auto)]

#[cfg(test)]
mod chunks;
#[cfg(test)]
mod kinds;
#[cfg(test)]
mod limits;
#[cfg(test)]
mod requests;
#[cfg(test)]
mod spelled;
#[cfg(test)]
mod spelled_reqs;
#[cfg(test)]
mod spelled_states;
#[cfg(test)]
mod spelled_txns;
#[cfg(test)]
mod tools;
#[cfg(test)]
mod values;
