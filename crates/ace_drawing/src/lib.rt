//! What is drawn of the bytes of a trace: the chart of a line of it, and the verdict on it.
#![tactic(auto)]

mod drawing;
mod front;
mod line_choice;

pub use drawing::{Drawing, drawing_of};
pub use line_choice::LineChoice;
