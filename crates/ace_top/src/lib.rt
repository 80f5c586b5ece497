//! The top call `ace`: all that the program does, over any source, sinks and gate.
#![tactic(auto)]

mod answer;
mod check;
mod generate;
pub mod laws;
mod output;
mod parse;
mod run;
mod show;
mod top;
mod trial;
mod words;

pub use top::{ace, tell_no_memory};
