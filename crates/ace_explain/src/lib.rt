//! The clause of a rule that an event breaks, told by what the checker keeps of the trace before
//! it, and by the last exclusive loads of the ports.
#![tactic(auto)]

mod address_clauses;
mod answer_clauses;
mod bit_clauses;
mod cache_clauses;
mod clauses;
mod end_clauses;
mod last_loads;
mod line_looks;
mod load_clauses;
mod memory_clauses;
mod order_clauses;
mod read_clauses;
mod snoop_clauses;
mod transfer_clauses;
mod write_clauses;

pub use clauses::clause;
pub use last_loads::{LastLoad, LastLoads};
