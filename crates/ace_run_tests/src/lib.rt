//! Tests of systems, of the answers that their masters pick, and of a run with a thread for each
//! port. They stand in a crate of their own, so that what they test is proved once.
#![tactic(auto)]

#[cfg(test)]
mod chosen;
#[cfg(test)]
mod rows;
#[cfg(test)]
mod systems;
#[cfg(test)]
mod threads;
