//! Binary traces: the writer, and the reader of exactly what is written.
#![tactic(auto)]

mod byte_buf;
mod error;
mod fields;
mod finding;
mod header;
pub mod laws;
mod put_fields;
mod put_records;
mod reader;
mod reason;
mod record;
mod records;
mod stage;
mod window;
mod writer;

pub use error::{BinErr, WriteErr};
pub use reader::{BinReader, BinStartErr};
pub use reason::BinReason;
pub use writer::BinWriter;
