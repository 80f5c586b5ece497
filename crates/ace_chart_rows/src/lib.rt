//! What a chart of a trace draws: the events of a line, and what there is of the line before each,
//! by what the checker keeps of the trace.
#![tactic(auto)]

mod bursts;
mod choose;
mod collect;
mod looks;
mod selection;
mod told;
mod values;

pub use choose::chosen_line;
pub use collect::{ChartErr, chart_of};
pub use selection::Selection;
