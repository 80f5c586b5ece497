//! What led to an event: of each line the last events, kept as a trace is read, and their text.
#![tactic(auto)]

mod journal;
mod led;
mod led_text;
mod looks;
mod marks;
mod rows;
mod side_text;
mod transfers;

pub use journal::Journal;
pub use led::Led;
pub use led_text::{push_event_words, push_led, transfers_of};
pub use looks::{Look, Looks};
pub use marks::{looks_for, mark_by, port_of};
pub use rows::{MOST_ROWS, Row, earlier_than};
pub use side_text::{push_moment, push_note};
pub use transfers::next_transfers;
