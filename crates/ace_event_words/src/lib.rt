//! What an event of a trace does, without its data, and the sentence that tells it; its data,
//! folded; and what transactions and snoops are called by their codes.
#![tactic(auto)]

mod deed;
mod folding;
mod kind_words;
mod phrase;
mod sentence;
mod small_words;
mod transfers;

pub use deed::{Deed, Kind, deed_of};
pub use folding::{push_folded, push_folded_event};
pub use kind_words::{read_words, served_words, snoop_words, transaction_words, write_words};
pub use sentence::{push_deed, record_column};
pub use small_words::{bit_word, outcome_word};
pub use transfers::Transfers;
