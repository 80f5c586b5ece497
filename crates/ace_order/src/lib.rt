//! The engine of barriers and DVM: it answers barriers, forwards DVM messages and completes Syncs.
#![tactic(auto)]

mod events;
mod order;
mod quiet;
mod senders;
mod waiting;

pub use order::Order;
