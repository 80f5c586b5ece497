//! Readers and writers that make a call again where a signal interrupted it.
#![tactic(auto)]

mod patient;

pub use patient::{Patient, TRIES};
