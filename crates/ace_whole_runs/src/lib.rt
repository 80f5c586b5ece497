//! Each right plan has a run. No crate of the program runs here: the laws speak of steps alone.
#![tactic(auto)]

pub mod laws;
