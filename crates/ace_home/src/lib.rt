//! The engine of the interconnect that serves lines: it grants each line to one transaction at a
//! time, snoops for it, answers it, and writes to memory what it leaves.
#![tactic(auto)]

mod candidates;
mod due;
mod held_up;
mod home;
pub mod laws;
mod least;
mod line_engine;
mod line_users;
mod moved;
mod port_set;
mod queues;
mod rest;
mod service;

pub use home::Home;
pub use line_engine::LineEngine;
