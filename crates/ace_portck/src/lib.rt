//! The rules that look at one port, and what an event of it belongs to.
#![tactic(auto)]

mod acknowledge_rules;
mod address_rules;
mod barrier_responses;
mod cache_rules;
mod memory_rules;
mod one_port;
mod opening;
mod pending;
mod port;
mod ports;
mod response_rules;
mod retired;
mod retirement_rules;
mod rules;
mod snoop_rules;
mod snoops;
mod target;
mod transactions;
mod write_data;
mod write_rules;

pub use acknowledge_rules::{line_of_read, line_of_write};
pub use address_rules::line_write_kind;
pub use one_port::OnePort;
pub use opening::OpeningMemory;
pub use pending::issued;
pub use ports::PortCheck;
pub use response_rules::line_write;
pub use rules::{is_at, unless};
pub use snoop_rules::snooped_line;
pub use target::{Progress, WriteData};
