//! Histories and texts on values that were worked out by hand: every answer's text, lines with and
//! without paths, acts, rows of both pools, the summary, the weights of entries, and a million
//! pushes after one reserve. The promises themselves are proved of all values.
#![tactic(auto)]

#[cfg(test)]
mod answers;
mod fitting;
#[cfg(test)]
mod history;
#[cfg(test)]
mod lines;
#[cfg(test)]
mod summary;
#[cfg(test)]
mod tools;
#[cfg(test)]
mod values;

pub use fitting::{
    blocked_has_no_act, fault_may_have_an_act, kept_tells_the_reply, own_act_at_its_place,
    refused_is_not_done, stale_has_no_act, values_are_of_their_place,
};
