//! Results of parts of a list of traces, as `ace_batch` writes them, read back and put together;
//! and counts of traces, as `ace_cover` writes them, read back.
#![tactic(auto)]

mod counts;
mod cursor;
mod merging;
mod part;
mod read_entry;
mod reading;
mod whole;

pub use counts::{CountsErr, read_counts};
pub use merging::{MergeErr, merge};
pub use part::{Part, PartErr};
pub use reading::read_part;
