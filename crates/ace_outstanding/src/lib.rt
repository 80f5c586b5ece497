//! The transactions that are outstanding at the end of a trace: how many there are, and what is
//! said of them.
#![tactic(auto)]

mod count;
mod words;

pub use count::count_outstanding;
pub use words::{outstanding_note, outstanding_words};
