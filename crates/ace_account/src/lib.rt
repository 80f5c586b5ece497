//! Accounts of an accepted trace: its report, or the order of its stores with the places of its
//! reads.
#![tactic(auto)]

pub mod laws;
mod listener;
mod put;
mod text;

pub use listener::{Account, AccountErr, Listener};
