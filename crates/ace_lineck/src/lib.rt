//! The rules that look at one line: who holds it, what memory has of it, and its grant.
#![tactic(auto)]

mod acknowledges;
mod addresses;
mod grant;
mod grant_rules;
mod grants;
mod hints;
mod kinds;
mod lines;
mod loads;
mod looks;
mod memory_writes;
mod opening_memory;
mod port_looks;
mod read_data;
mod record;
mod replies;
mod room;
mod silent_changes;
mod snoop_answers;
mod snoop_data;
mod snoops;
mod stages;
mod states;
mod stores;
mod write_responses;
mod writes;

pub use kinds::{
    has_snoop_code, is_line_read_transaction, is_no_snoop_read, is_no_snoop_write, snoop_of,
    takes_grant,
};
pub use lines::LineCheck;
