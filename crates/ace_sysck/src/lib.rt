//! The rules that look at the system as a whole: barriers, DVM messages and exclusive transactions.
#![tactic(auto)]

mod acknowledges;
mod barrier_addresses;
mod barriers;
mod entries;
mod grants;
mod hearing;
mod inboxes;
mod kinds;
mod loads;
mod message_addresses;
mod messages;
mod monitors;
mod read_addresses;
mod registrations;
mod responses;
mod results;
mod rules;
mod silent_changes;
mod snoop_answers;
mod snoops;
mod stores;
mod syncs;
mod system;
mod words;

pub use barriers::{Barrier, OpenPair};
pub use inboxes::Message;
pub use messages::PortMessages;
pub use system::SysCheck;
pub use words::is_message_word;
