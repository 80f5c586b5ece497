//! Worked runs of scripts, and what the definitions of runs say of each: that each burst is a step,
//! which ports are enabled at each point, and that the whole follows its plan; and for each step
//! and each demand on a trace that follows a plan one that lacks it. These functions do no work:
//! their contracts are what the definitions compute.
#![tactic(auto, unfolding(ace_codes::specs::Reads::ar_kind_of, ace_codes::specs::Snoops::ac_kind_of, ace_codes::specs::Writes::aw_kind_of, ace_tables::specs::Answers::snoop_rows, ace_tables::specs::Answers::rows_to, ace_tables::specs::Answers::rows_among, ace_event::specs::Bytes::merged, ace_event::specs::Bytes::number_of_bytes, ace_runs::specs::Bursts::is_kept, ace_runs::specs::Closing::closing_of))]

pub mod demands;
pub mod line_steps;
pub mod master_steps;
pub mod mixed;
pub mod order_steps;
pub mod shared;
pub mod short;
pub mod stuck;
