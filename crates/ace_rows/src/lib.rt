//! Worked traces, and what the definitions say of each: for each rule a shortest trace that breaks
//! it, traces of each kind of transaction, what the terms of the rules are at points of a trace,
//! and runs that lack a property. These functions do no work: their contracts are what the
//! definitions compute.
#![tactic(auto, unfolding(ace_codes::specs::Reads::ar_kind_of, ace_codes::specs::Snoops::ac_kind_of, ace_codes::specs::Writes::aw_kind_of, ace_event::specs::Bytes::merged, ace_event::specs::Bytes::number_of_bytes))]

pub mod properties;
pub mod shortest;
pub mod terms;
pub mod worked_barriers;
pub mod worked_exclusives;
pub mod worked_memory;
pub mod worked_messages;
pub mod worked_reads;
pub mod worked_stores;
pub mod worked_updates;
