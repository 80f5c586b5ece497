//! What the clause that an event breaks expects, and what it got: where it expects a value, of the
//! tables of states and answers, or of the data that are due; and the two lines that tell of it.
#![tactic(auto)]

mod clauses;
mod states;
mod tables;
mod text;
mod values;
mod wanted;

pub use clauses::expectation;
pub use text::{expected_text, got_text, push_expectation};
pub use values::word_of;
pub use wanted::{Expectation, StateTable, Width};
