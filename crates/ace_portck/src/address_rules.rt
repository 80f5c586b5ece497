//! The least rule of those that look at one port that an AR or AW breaks.

ghost use Rattle.std.specs.Prelude.{◌≡◌, ◌&&◌, ◌||◌};
ghost use Rattle.ace_model.specs.AddressRules.{may_issue_read, may_issue_write};
ghost use Rattle.ace_model.specs.Kinds.{may_be_exclusive};
ghost use Rattle.ace_model.specs.Trace.{implies};
ghost use Rattle.ace_model.specs.Transactions.{is_ace};
ghost use Rattle.ace_portck.specs.LineWrites.{line_write_kind};

use crate::PortCheck;
use crate::rules::{has_port, is_line_address, unless};
use ace_codes::{ArKind, AwKind, read_aw};
use ace_event::{Channel, Header};
use ace_model::kinds::{
    is_ace, is_line_read, is_line_write, is_lite_read, is_lite_write, may_be_exclusive,
};

/// The kind of a line write, by the fields of its AW.
#[inline(always)]
pub fn line_write_kind(snoop: u8, dom: u8, bar: u8) -> Option<AwKind>
    ensures { result ≡ line_write_kind snoop dom bar }
{
    match read_aw(snoop, dom, bar) {
        Some(kind) if is_line_write(kind) => Some(kind),
        _ => None,
    }
}

/// Of K2, that the port may issue a read of this kind (Arm IHI 0022E, C3.1.3 and C11).
#[inline(always)]
fn may_issue_read(header: &Header, port: u8, kind: ArKind) -> bool
    ensures { result ≡ may_issue_read header.now port kind }
{
    is_ace(header, port) || is_lite_read(kind)
}

/// Of K2, that the port may issue a write of this kind (Arm IHI 0022E, C3.1.3 and C11).
#[inline(always)]
fn may_issue_write(header: &Header, port: u8, kind: AwKind) -> bool
    ensures { result ≡ may_issue_write header.now port kind }
{
    is_ace(header, port) || is_lite_write(kind)
}

/// K7, of an AR: with lock 1 the port is an ACE port, and the kind is one of exclusive transactions
/// (Arm IHI 0022E, C9).
#[inline(always)]
fn may_lock(header: &Header, port: u8, kind: ArKind, lock: bool) -> bool
    ensures { result ≡ implies lock (is_ace header.now port && may_be_exclusive kind) }
{
    !lock || (is_ace(header, port) && may_be_exclusive(kind))
}

impl PortCheck {
    ghost use Rattle.std.specs.Prelude.{ℕ};
    ghost use Rattle.ace_codes.specs.Reads.{ar_kind_of};
    ghost use Rattle.ace_codes.specs.Writes.{aw_kind_of};
    ghost use Rattle.ace_event.specs.declared.event.Event.TheVariants.{Ar, Aw};
    ghost use Rattle.ace_model.specs.Accepted.{least_of};
    ghost use Rattle.ace_model.specs.Shares.{port_rules};
    ghost use Rattle.ace_portck.specs.Stands.{Stands};
    ghost use Rattle.ace_portck.specs.Targets.{Recording};

    /// The least rule of the share that an AR breaks: one of K1 to K5 and K7. `kind` is the one
    /// that its codes tell, if they tell one.
    #[inline(always)]
    pub fn rule_of_ar(
        &self,
        port: u8,
        id: u8,
        addr: u32,
        kind: Option<ArKind>,
        lock: bool,
    ) -> Option<u8>
        ensures { (r : Recording) (snoop dom bar : ℕ) → Stands self.now r
            → kind ≡ ar_kind_of snoop dom bar
            → result ≡ least_of port_rules r.header r.past (Ar port id addr snoop dom bar lock) }
    {
        if !has_port(&self.header, port) {
            return Some(1);
        }
        let Some(kind) = kind else {
            return Some(2);
        };
        if !may_issue_read(&self.header, port, kind) {
            return Some(2);
        }
        let line = is_line_read(kind);
        if line && !is_line_address(addr) {
            return Some(3);
        }
        let kept = &self.kept(port).transactions;
        if !kept.is_name_free(Channel::Read, id) {
            return Some(4);
        }
        if line && !kept.is_line_free(addr) {
            return Some(5);
        }
        unless(may_lock(&self.header, port, kind, lock), Some(7))
    }

    /// The least rule of the share that an AW breaks: one of K1 to K5 and K10. `kind` is the one
    /// that its codes tell, if they tell one.
    #[inline(always)]
    pub fn rule_of_aw(&self, port: u8, id: u8, addr: u32, kind: Option<AwKind>) -> Option<u8>
        ensures { (r : Recording) (snoop dom bar : ℕ) → Stands self.now r
            → kind ≡ aw_kind_of snoop dom bar
            → result ≡ least_of port_rules r.header r.past (Aw port id addr snoop dom bar) }
    {
        if !has_port(&self.header, port) {
            return Some(1);
        }
        let Some(kind) = kind else {
            return Some(2);
        };
        if !may_issue_write(&self.header, port, kind) {
            return Some(2);
        }
        let on_line = is_line_write(kind);
        if on_line && !is_line_address(addr) {
            return Some(3);
        }
        let kept = &self.kept(port).transactions;
        if !kept.is_name_free(Channel::Write, id) {
            return Some(4);
        }
        if on_line && !kept.is_line_free(addr) {
            return Some(5);
        }
        unless(kept.keeps_kind_apart(kind), Some(10))
    }
}
