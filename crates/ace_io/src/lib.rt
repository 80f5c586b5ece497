//! What the program touches outside itself: a source of bytes, sinks, a gate, and the cutting of
//! bytes into lines.
#![tactic(auto)]

mod counts;
mod give;
mod honest_source;
pub mod laws;
mod line_buf;
mod line_reader;
mod mem_sink;
mod mem_source;
mod open_sink;
mod outside;
mod std_sink;
mod std_source;

pub use give::give_all;
pub use honest_source::HonestSource;
pub use line_buf::{LineBuf, LineEnd};
pub use line_reader::LineReader;
pub use mem_sink::MemSink;
pub use mem_source::MemSource;
pub use open_sink::OpenSink;
pub use outside::{Failed, Free, Gate, NoMemory, Sink, Source};
pub use std_sink::StdSink;
pub use std_source::StdSource;
