//! The clauses of the rules: the parts of a rule in the order in which they are asked, so that an
//! event that breaks a rule is told by the first that is false.
#![tactic(auto, unfolding(ace_codes::specs::Reads::ar_kind_of, ace_codes::specs::Snoops::ac_kind_of, ace_codes::specs::Writes::aw_kind_of, ace_event::specs::Bytes::merged, ace_event::specs::Bytes::number_of_bytes))]

pub mod laws;
mod letters;
pub mod rows;

pub use letters::{ClauseName, Letter};
