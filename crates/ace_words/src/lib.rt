//! The words that explain traces: the titles of the rules, where their clauses are kept, what is
//! wrong where one is broken, and what kinds, states and ports are called.
#![tactic(auto)]

mod address_breaks;
mod address_sentences;
mod breaks;
mod cache_breaks;
mod cache_sentences;
mod kinds;
mod order_breaks;
mod order_sentences;
mod read_breaks;
mod read_sentences;
mod rules;
mod snoop_breaks;
mod snoop_sentences;
#[cfg(test)]
mod tests;
mod write_breaks;
mod write_sentences;

pub use breaks::wrong_with;
pub use kinds::{push_port, read_word, snoop_word, state_word, write_word};
pub use rules::{kept_where, rule_title};
