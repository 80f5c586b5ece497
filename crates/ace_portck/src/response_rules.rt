//! The least rule of those that look at one port that an R or B breaks, by the transaction that it
//! belongs to.

ghost use Rattle.std.specs.Prelude.{◌≡◌, ◌==◌, ◌&&◌, not};
ghost use Rattle.ace_portck.specs.Reads.{is_next_beat};
ghost use Rattle.ace_portck.specs.LineWrites.{line_write};

use crate::PortCheck;
use crate::rules::{has_port, unless};
use crate::target::Progress;
use ace_codes::{ArKind, AwKind, low_bits};
use ace_model::Transaction;
use ace_model::kinds::{beats_of, is_line_write, write_kind};

/// The kind of a line write: a write that isn't half of a barrier.
#[inline(always)]
pub fn line_write(transaction: &Transaction) -> Option<AwKind>
    ensures { result ≡ line_write transaction.now }
{
    match write_kind(transaction) {
        Some(kind) if is_line_write(kind) => Some(kind),
        _ => None,
    }
}

/// After so many transfers of a read of this kind some are left, and `last` says whether the next
/// is the last.
#[inline(always)]
fn is_next_beat(transfers: u8, last: bool, kind: ArKind) -> bool
    ensures { result ≡ is_next_beat transfers last kind }
{
    let beats = beats_of(kind);
    transfers < beats && last == (transfers.wrapping_add(1) == beats)
}

/// Of K26, that the write has had no B and that the response is 0.
#[inline(always)]
fn may_respond(x: &Progress, resp: u8) -> bool
    ensures { result ≡ ((resp == 0) && not x.now.complete) }
{
    resp == 0 && !x.complete
}

impl PortCheck {
    ghost use Rattle.std.specs.Prelude.{ℕ, Bool, None, Some, option_map};
    ghost use Rattle.ace_event.specs.declared.event.Channel.TheVariants.{Read, Write};
    ghost use Rattle.ace_event.specs.declared.event.Event.TheVariants.{R, B};
    ghost use Rattle.ace_model.specs.Accepted.{least_of};
    ghost use Rattle.ace_model.specs.Shares.{port_rules};
    ghost use Rattle.ace_model.specs.Transactions.{outstanding, read_kind};
    ghost use Rattle.ace_portck.specs.Stands.{Stands};
    ghost use Rattle.ace_portck.specs.Targets.{Recording, progress_of};

    /// The least rule of the share that an R of the outstanding read breaks: K1, K2 or, of K18,
    /// that transfers are left and that it is the last exactly where it says so (Arm IHI 0022E,
    /// C3.2). `kind` is that of the read.
    #[inline(always)]
    pub fn rule_of_r(
        &self,
        port: u8,
        x: &Progress,
        kind: ArKind,
        resp: u8,
        last: bool,
    ) -> Option<u8>
        ensures { (r : Recording) (id word : ℕ) → Stands self.now r
            → option_map (progress_of r.header r.past) (outstanding r.header r.past port Read id)
            ≡ Some x.now
            → read_kind x.now.transaction ≡ Some kind
            → result ≡ least_of port_rules r.header r.past (R port id resp last word) }
    {
        if !has_port(&self.header, port) {
            return Some(1);
        }
        if low_bits(resp) >= 2 {
            return Some(2);
        }
        unless(is_next_beat(x.transfers, last, kind), Some(18))
    }

    /// The same, of an R under an identifier with no outstanding read, which breaks K18.
    pub fn rule_of_no_r(&self, port: u8, resp: u8) -> u8
        ensures { (r : Recording) (id : ℕ) (last : Bool) (word : ℕ) → Stands self.now r
            → outstanding r.header r.past port Read id ≡ None
            → Some result ≡ least_of port_rules r.header r.past (R port id resp last word) }
    {
        if !has_port(&self.header, port) {
            return 1;
        }
        if low_bits(resp) >= 2 { 2 } else { 18 }
    }

    /// The least rule of the share that a B of the outstanding write breaks: K1, K2 or, of K26,
    /// that the write has had no B and that the response is 0 (Arm IHI 0022E, C3.5 and C3.6.1).
    #[inline(always)]
    pub fn rule_of_b(&self, port: u8, x: &Progress, resp: u8) -> Option<u8>
        ensures { (r : Recording) (id : ℕ) → Stands self.now r
            → option_map (progress_of r.header r.past) (outstanding r.header r.past port Write id)
            ≡ Some x.now
            → result ≡ least_of port_rules r.header r.past (B port id resp) }
    {
        if !has_port(&self.header, port) {
            return Some(1);
        }
        if low_bits(resp) >= 2 {
            return Some(2);
        }
        if may_respond(x, resp) { None } else { Some(26) }
    }

    /// The same, of a B under an identifier with no outstanding write, which breaks K26.
    pub fn rule_of_no_b(&self, port: u8, resp: u8) -> u8
        ensures { (r : Recording) (id : ℕ) → Stands self.now r
            → outstanding r.header r.past port Write id ≡ None
            → Some result ≡ least_of port_rules r.header r.past (B port id resp) }
    {
        if !has_port(&self.header, port) {
            return 1;
        }
        if low_bits(resp) >= 2 { 2 } else { 26 }
    }
}
