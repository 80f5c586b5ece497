//! What a side file tells of some events, ports and lines: the times of events, the names of ports,
//! the addresses that lines have in the design, remarks, and how the file ends.
#![tactic(auto)]

mod facts;
mod gathering;
mod labels;
mod query;
mod reading;
mod times;

pub use facts::SideFacts;
pub use query::Query;
pub use reading::read_facts;
