//! The events of a recorded trace, its header, and the lines of memory that they carry.
#![tactic(auto)]

mod event;
mod header;
pub mod laws;
mod line;

pub use event::{Channel, Event, Outcome};
pub use header::{Header, PortKind, kind_of};
pub use line::{Line, merge};
