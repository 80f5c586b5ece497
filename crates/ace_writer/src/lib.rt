//! The writer of trace text: the header and the events, exactly as the reader of traces reads them.
#![tactic(auto)]

mod error;
mod fields;
mod header;
mod records;
mod text_buf;
mod writer;

pub use error::WriteErr;
pub use text_buf::{TEXT_ROOM, TextBuf};
pub use writer::Writer;
