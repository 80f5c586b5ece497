//! What there is of the line of an event before it, by what the checker keeps: how each port has
//! it, what is outstanding, the grant and memory; and the text that tells of all that.
#![tactic(auto)]

mod before;
mod line_rows;
mod looks;
mod named_line;
mod port_rows;
mod text;
mod words;

pub use before::{LineBefore, PortBefore, SnoopBefore};
pub use line_rows::push_grant_text;
pub use looks::before_event;
pub use text::push_line_before;
