//! What two stores hold when a group is attached over them: their epochs and the sums over the
//! cache's records, or the first cause why no group can be.
//!
//! Every key and value of both is read once, in the order of the keys, a page at a time, the base
//! behind each record of the cache up to its name. Promises, where the stores tell their maps, that
//! what is told is true (`specs/Surveys.antt`): the two maps stand for a plain store at these
//! epochs, so that a group begins there, and the sums are those over the records; or the cause is
//! there, and none that comes before it (`specs/Causes.antt`): a bad record of the cache, one of
//! the base, epochs, the first name whose record does not lie rightly over the base's state. Both
//! stores stay as they were, and a store's fault is told with its pool.
#![tactic(auto)]

mod base;
mod both;
mod cache;
mod cursor;
mod entries;
mod fault;
mod fitting;
mod sums;
mod told;

pub use both::survey;
pub use fault::SurveyFault;
pub use sums::sum_records;
pub use told::Survey;
