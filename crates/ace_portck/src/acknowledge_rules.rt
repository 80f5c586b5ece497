//! The least rule of those that look at one port that an RK or WK breaks, the transaction that it
//! belongs to, and its line.

ghost use Rattle.std.specs.Prelude.{◌≡◌, Some};
ghost use Rattle.ace_model.specs.Transactions.{read_kind, write_kind};
ghost use Rattle.ace_portck.specs.Targets.{line_of};

use crate::PortCheck;
use crate::rules::{has_ace_port, unless};
use crate::target::Progress;
use ace_codes::{ArKind, AwKind};
use ace_event::Channel;
use ace_model::kinds::{is_line_read, is_line_write};

/// The line of a read of this kind: barriers and DVM have none.
#[inline(always)]
pub fn line_of_read(x: &Progress, kind: ArKind) -> Option<u32>
    ensures { read_kind x.now.transaction ≡ Some kind → result ≡ line_of (Some x.now) }
{
    is_line_read(kind).then_some(x.transaction.addr)
}

/// The line of a write of this kind: barriers have none.
#[inline(always)]
pub fn line_of_write(x: &Progress, kind: AwKind) -> Option<u32>
    ensures { write_kind x.now.transaction ≡ Some kind → result ≡ line_of (Some x.now) }
{
    is_line_write(kind).then_some(x.transaction.addr)
}

impl PortCheck {
    ghost use Rattle.std.specs.Prelude.{None, option_map, if◌then◌else◌};
    ghost use Rattle.std.specs.Option.{option_copied};
    ghost use Rattle.ace_codes.specs.declared.state.LineState.{LineState};
    ghost use Rattle.ace_event.specs.declared.event.Event.TheVariants.{Rk, Wk};
    ghost use Rattle.ace_model.specs.Accepted.{least_of};
    ghost use Rattle.ace_model.specs.Shares.{port_rules};
    ghost use Rattle.ace_model.specs.Transactions.{acknowledged, is_ace};
    ghost use Rattle.ace_portck.specs.Stands.{Stands};
    ghost use Rattle.ace_portck.specs.Targets.{Recording, progress_of};

    /// The least rule of the share that an RK breaks: K1, or K22, that its port has a complete read
    /// without RK (Arm IHI 0022E, C3.3). Where `acknowledged` finds the transaction that it belongs
    /// to, it breaks none.
    #[inline(always)]
    pub fn rule_of_rk(&self, port: u8) -> Option<u8>
        ensures { (r : Recording) (st : LineState) → Stands self.now r
            → result ≡ least_of port_rules r.header r.past (Rk port st) }
    {
        if !has_ace_port(&self.header, port) {
            return Some(1);
        }
        let kept = &self.kept(port).transactions;
        unless(kept.next_complete(Channel::Read).is_some(), Some(22))
    }

    /// The least rule of the share that a WK breaks: K1, or K27, that its port has a complete write
    /// without WK (Arm IHI 0022E, C3.5). Where `acknowledged` finds the transaction that it belongs
    /// to, it breaks none.
    #[inline(always)]
    pub fn rule_of_wk(&self, port: u8) -> Option<u8>
        ensures { (r : Recording) (st : LineState) → Stands self.now r
            → result ≡ least_of port_rules r.header r.past (Wk port st) }
    {
        if !has_ace_port(&self.header, port) {
            return Some(1);
        }
        let kept = &self.kept(port).transactions;
        unless(kept.next_complete(Channel::Write).is_some(), Some(27))
    }
    /// The transaction that the next RK or WK of the port belongs to, if it is an ACE port of the
    /// header, where it stands. Where there is one, the RK or WK breaks no rule that looks at one
    /// port: these ask of it that the port is such a port (K1) and has a complete transaction
    /// without it (K22, K27; Arm IHI 0022E, C3.3 and C3.5).
    #[inline(always)]
    pub fn acknowledged(&self, port: u8, chan: Channel) -> Option<&Progress>
        ensures { (r : Recording) → Stands self.now r
            → option_copied result ≡ option_map (progress_of r.header r.past)
            (if is_ace r.header port then acknowledged r.past port chan else None) }
    {
        self.kept(port).next_acknowledged(&self.header, port, chan)
    }
}
