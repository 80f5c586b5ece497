//! Tests of bursts, of the engine of memory updates, of the one of barriers and DVM, and of what
//! the master of an ACE port keeps. They stand in a crate of their own, so that what they test is
//! proved once.
#![tactic(auto)]

#[cfg(test)]
mod bursts;
#[cfg(test)]
mod master_state;
#[cfg(test)]
mod order;
#[cfg(test)]
mod update;
#[cfg(test)]
mod waiting;
