//! The engine of memory updates and Evicts: it writes their data to memory and responds to them.
#![tactic(auto)]

mod passed;
mod update;

pub use update::Update;
