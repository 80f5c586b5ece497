//! What the calls of the programs share: their words, numbers among them, and texts that are given
//! to an output whole or in part.
#![tactic(auto)]

mod give;
mod number;
mod pieces;
mod words;

pub use give::{break_off, give_text};
pub use number::number_of;
pub use pieces::give_pieces;
pub use words::read_words;
