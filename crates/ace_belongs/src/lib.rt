//! What an event of a trace belongs to, a transaction and a line, by what the checker keeps of the
//! trace before it.
#![tactic(auto)]

mod belongs;
mod next;

pub use belongs::event_line;
pub use next::{next_line, next_number, next_serves};
