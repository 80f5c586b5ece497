//! The reader of side files: what a recorder writes beside a trace.
#![tactic(auto)]

mod error;
mod fields;
mod kind;
pub mod laws;
mod line;
mod lines;
mod order;
mod parse;
mod parts;
mod reader;
mod reason;
mod short_text;
mod stage;

pub use error::SideErr;
pub use line::{Digits, SideEnd, SideLine};
pub use reader::{SideReader, SideStartErr};
pub use reason::Reason;
pub use short_text::ShortText;
