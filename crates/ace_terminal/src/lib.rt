//! What a terminal is shown: the texts that are told of traces in colours, where that is wished,
//! and how far a call is.
#![tactic(auto)]

mod clear;
mod counted;
pub mod laws;
mod looks;
mod painter;
mod painting;
mod shown_line;
mod terminal;
#[cfg(test)]
mod tests;
mod watch;
mod wishes;

pub use clear::Clearing;
pub use counted::Tally;
pub use looks::{Colour, Look};
pub use painter::Painter;
pub use painting::paint;
pub use shown_line::Progress;
pub use terminal::{is_screen, shows_colours};
pub use watch::Watched;
pub use wishes::{When, Wish, is_painted, split_wish};
