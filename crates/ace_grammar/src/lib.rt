//! The reader of trace text: exactly the grammar of the header and of the events.
#![tactic(auto)]

mod error;
mod event;
mod fields;
mod front;
mod header;
pub mod laws;
mod line_reason;
mod lines;
mod reader;
mod reason;
mod records;
mod shapes;
mod stage;
mod taker;

pub use error::ReadErr;
pub use event::{NO_EVENT, parse_event};
pub use fields::number_of;
pub use header::{parse_ports, parse_version};
pub use line_reason::cut_field;
pub use lines::{MOST_COUNTED, take_line};
pub use reader::{Reader, StartErr};
pub use reason::Reason;
pub use shapes::Shape;
pub use taker::Taker;
