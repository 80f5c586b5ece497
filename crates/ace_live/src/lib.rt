//! Live ports: callers call the ports of a running system from their own threads. What they did
//! stands in one legal history, each call once.
#![tactic(auto)]

pub mod laws;
mod live;
mod rule;
mod seat;
mod setting;
mod state;

pub use ace_history::Entry;
pub use live::Live;
pub use seat::{Full, LiveSeat};
pub use setting::Setting;
pub use state::LiveState;
