//! Sequence charts of one line of a trace, as SVG: what is drawn, where, and its text.
#![tactic(auto)]

mod cells;
mod chart;
mod frame;
mod labels;
pub mod laws;
mod legend;
mod lifelines;
mod marks;
mod places;
mod reasons;
mod rows;
mod side;
mod styles;

pub use chart::{chart_text, row_numbers};
pub use frame::Below;
pub use places::{Lifeline, MOST_ROWS};
pub use reasons::Reason;
pub use rows::{Burst, Chart, Look, Row, Version};
