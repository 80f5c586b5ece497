//! What a run is: when a trace follows a plan, by which steps it may go on, and the laws of both.
//! No crate of the program runs here; the engines are proved against these definitions.
#![tactic(auto)]

pub mod laws;
