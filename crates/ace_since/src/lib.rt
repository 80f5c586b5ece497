//! Since when each line is as it is: the numbers of the events that changed its states, wrote its
//! memory and granted it last, kept as a trace is followed.
#![tactic(auto)]

mod change;
mod line_since;
mod since;

pub use line_since::{LineSince, Stay};
pub use since::Since;
