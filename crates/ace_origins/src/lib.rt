//! Where a word stands that came instead of the one that a clause expects: in memory, at a port, as
//! another word of its line, on another line, or nowhere.
#![tactic(auto)]

mod origins;
mod search;
mod text;
mod words;

pub use origins::{Holder, Origin, SentWord};
pub use search::origin;
pub use text::push_origin;
