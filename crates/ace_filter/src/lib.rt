//! A snoop filter: which ports may hold a line, so that the others need not be snooped.
#![tactic(auto)]

mod drain;
mod filter;
mod lines;
mod port;
mod queue;
mod run;
mod sets;

pub use drain::drain_filtered;
pub use filter::Filter;
pub use run::run_filtered;
