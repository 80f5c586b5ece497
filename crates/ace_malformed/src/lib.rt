//! A malformed line of a trace: the reading that keeps it, where it is wrong and how, what may
//! stand there, and the text that tells of all that.
#![tactic(auto)]

mod bad_line;
mod expected;
mod field;
mod field_reason;
mod fields;
pub mod laws;
mod line_text;
mod place;
mod pushing;
mod reading;
mod shown;
mod text;
mod wrong;
mod wrong_field;

pub use bad_line::BadLine;
pub use field::Field;
pub use line_text::LineText;
pub use place::column_of;
pub use pushing::{push, push_number};
pub use reading::{NoHeader, next_event, read_header};
pub use text::bad_line_text;
pub use wrong::push_wrong;
