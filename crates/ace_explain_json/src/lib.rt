//! What there is to say of a trace, as a JSON object in one line.
#![tactic(auto)]

mod event;
mod evidence;
mod members;
mod object;
mod outcome;
mod places;
mod values;

pub use object::{explanation_json, no_memory_json, plain_json, unfinished_json};
pub use outcome::outcome_of_verdict;
