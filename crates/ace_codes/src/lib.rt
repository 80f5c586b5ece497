//! The words of the ACE channels: kinds of transactions and snoops, domains, barriers, line states
//! and response bits.
#![tactic(auto)]

mod bits;
mod channel;
mod kind;
pub mod laws;
mod read;
mod response;
mod state;

pub use bits::{has_error, is_shared, low_bits, passes_dirty, transfers_data, was_unique};
pub use channel::{Bar, Domain};
pub use kind::{ArKind, AwKind, SnoopKind};
pub use read::{ac_code, ar_code, aw_code, read_ac, read_ar, read_aw, read_bar, read_domain};
pub use response::{CrResp, RResp};
pub use state::LineState;
