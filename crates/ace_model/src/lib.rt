//! What a trace means: its transactions, the rules, which traces are accepted, and what acceptance
//! promises.
#![tactic(auto)]

mod among;
mod breaks;
mod event_ports;
pub mod kinds;
pub mod laws;
mod limits;
mod plans;
mod snoops;
mod transactions;

pub use among::{AllPorts, Among};
pub use breaks::Break;
pub use event_ports::port_of;
pub use limits::{MOST_LINES, MOST_SNOOPS};
pub use plans::{Op, PlanOp, PlanView, PolicyWord};
pub use snoops::{Answer, Snoop};
pub use transactions::Transaction;
