//! The tables of cache states: from which state a transaction may start, in which it may end, which
//! snoop it causes, how a snoop may be answered, and which changes of state a port makes on its
//! own. `docs/TABLES.md` shows them.
#![tactic(auto)]

mod answers;
mod ends;
pub mod laws;
mod rows;
mod silent;
mod snoops;
mod starts;
mod states;

pub use answers::{is_snoop_row, snoop_rows};
pub use ends::{end_read, end_write};
pub use rows::{Row, RowList};
pub use silent::silent_ok;
pub use snoops::{snoop_of_read, snoop_of_write};
pub use starts::{start_read_ok, start_write_ok};
pub use states::{StateSet, is_dirty, is_invalid, is_unique};
