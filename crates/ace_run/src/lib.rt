//! A run of a script in which each port takes its turns in a thread of its own.
#![tactic(auto)]

mod workers;

pub use workers::run_threads;
