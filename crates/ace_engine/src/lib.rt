//! What the engines of a run have in common: the bursts that they put, and what a turn and an event
//! that is heard promise.
#![tactic(auto)]

mod burst;
mod engine;
pub mod laws;

pub use burst::Burst;
pub use engine::Engine;
