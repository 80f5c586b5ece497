//! The report of an accepted trace: what each port did, the stores and the value of each line, the
//! place of each load.
#![tactic(auto)]

mod lines;
mod loads;
mod ports;
mod put;
mod report;
mod stores;
mod tally;
mod text;

pub use put::{give_over, make_room};
pub use report::Report;
pub use text::push_count;
