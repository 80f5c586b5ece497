//! The results of many traces: a line for each, a summary with failures grouped by signature, a
//! status, and the same as JUnit XML and as JSON lines.
#![tactic(auto)]

mod counting;
mod entry;
mod escape;
mod grouping;
mod json;
mod junit;
pub mod laws;
mod looked;
mod outcome;
mod push;
mod row;
mod shard;
mod summary;

pub use counting::status_of_all;
pub use entry::Entry;
pub use escape::push_json;
pub use json::{push_optional, push_part_results, push_results};
pub use junit::push_junit;
pub use looked::add_looked_at;
pub use outcome::Outcome;
pub use row::push_rows;
pub use shard::Shard;
pub use summary::{push_summary, told_text};
