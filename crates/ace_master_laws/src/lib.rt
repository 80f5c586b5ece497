//! Laws of the masters of a run: their steps keep a run legal. No crate of the program runs here;
//! masters are proved by it.
#![tactic(auto)]

pub mod laws;
