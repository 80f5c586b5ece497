//! The checker of a trace, which is fed one event at a time, and the three shares of the rules that
//! it stands on.
#![tactic(auto)]

mod acknowledges;
mod checker;
mod grants;
mod heard;
mod hearing;
mod judging;
mod line_addresses;
mod lineless_addresses;
mod lineless_reads;
mod loads;
mod memory_writes;
mod opening_memory;
mod read_addresses;
mod read_data;
mod retirements;
mod shares;
mod silent_changes;
mod snoop_answers;
mod snoop_data;
mod snoops;
mod stores;
mod write_addresses;
mod write_responses;
mod writes;

pub use checker::{CheckErr, Checker, Step};
pub use shares::Shares;
