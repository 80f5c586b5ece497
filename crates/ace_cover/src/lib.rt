//! Coverage: how many events of traces show each point, and what is told of that.
#![tactic(auto)]

mod columns;
mod follow;
mod groups;
mod hit;
mod hits;
mod json;
mod listed;
mod listing;
mod names;
mod push;
mod situations;
mod table;
mod totals;

pub use follow::cover_within;
pub use groups::{Group, groups_of};
pub use hit::Hit;
pub use json::push_json;
pub use listing::Listing;
pub use names::push_name;
pub use table::{all_hits, push_table};
pub use totals::{Totals, add_hits, all_points, no_hits};
