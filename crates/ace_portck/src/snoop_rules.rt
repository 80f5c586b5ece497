//! The least rule of those that look at one port that an AC, CR or CD breaks, and what else such an
//! event asks of its port.

ghost use Rattle.std.specs.Prelude.{◌≡◌, ◌&&◌, Some};
ghost use Rattle.std.specs.List.{list_any};
ghost use Rattle.ace_codes.specs.Snoops.{ac_kind_of};
ghost use Rattle.ace_model.specs.Progress.{updates_memory};
ghost use Rattle.ace_model.specs.Transactions.{is_on};
ghost use Rattle.ace_portck.specs.Targets.{line_of_snoop};

use crate::PortCheck;
use crate::rules::{has_ace_port, is_line_address, unless};
use crate::target::Progress;
use ace_codes::{SnoopKind, has_error};
use ace_model::Snoop;
use ace_model::kinds::{is_line_snoop, is_on, updates_memory};

/// The line of a snoop of this kind, if it is a line snoop.
#[inline(always)]
pub fn snooped_line(snoop: &Snoop, kind: SnoopKind) -> Option<u32>
    ensures { ac_kind_of snoop.now.snoop ≡ Some kind → result ≡ line_of_snoop (Some snoop.now) }
{
    if is_line_snoop(kind) {
        Some(snoop.addr)
    } else {
        None
    }
}

/// One of the list is on the line and complete.
#[inline(always)]
fn has_complete_on(list: &[Progress], line: u32) -> bool
    ensures { result ≡ list_any (λ x. is_on x.transaction line && x.complete) list.now }
{
    list.iter()
        .any(|x| is_on(&x.transaction, line) && x.complete)
}

/// One of the list is a memory update of the line.
#[inline(always)]
fn has_update_on(list: &[Progress], line: u32) -> bool
    ensures { result
        ≡ list_any (λ x. is_on x.transaction line && updates_memory x.transaction) list.now }
{
    list.iter().any(|x| is_on(&x.transaction, line) && updates_memory(&x.transaction))
}

impl PortCheck {
    ghost use Rattle.std.specs.Prelude.{ℕ};
    ghost use Rattle.std.specs.Option.{option_copied};
    ghost use Rattle.ace_codes.specs.declared.state.LineState.{LineState};
    ghost use Rattle.ace_event.specs.declared.event.Event.TheVariants.{Ac, Cr, Cd};
    ghost use Rattle.ace_model.specs.Accepted.{least_of};
    ghost use Rattle.ace_model.specs.Progress.{has_update};
    ghost use Rattle.ace_model.specs.Replies.{next_sent_beat};
    ghost use Rattle.ace_model.specs.Shares.{port_rules};
    ghost use Rattle.ace_model.specs.Snoops.{answered};
    ghost use Rattle.ace_model.specs.States.{owes_wack};
    ghost use Rattle.ace_portck.specs.Stands.{Stands};
    ghost use Rattle.ace_portck.specs.Targets.{Recording, sending};

    /// The least rule of the share that an AC breaks: K1 to K3. `kind` is the one that its code
    /// tells, if it tells one.
    #[inline(always)]
    pub fn rule_of_ac(&self, port: u8, addr: u32, kind: Option<SnoopKind>) -> Option<u8>
        ensures { (r : Recording) (snoop : ℕ) → Stands self.now r → kind ≡ ac_kind_of snoop
            → result ≡ least_of port_rules r.header r.past (Ac port addr snoop) }
    {
        if !has_ace_port(&self.header, port) {
            return Some(1);
        }
        let Some(kind) = kind else {
            return Some(2);
        };
        if is_line_snoop(kind) && !is_line_address(addr) {
            return Some(3);
        }
        None
    }

    /// The least rule of the share that a CR breaks: K1, K2 or K14, that it answers a snoop of the
    /// port (Arm IHI 0022E, C3.7).
    #[inline(always)]
    pub fn rule_of_cr(&self, port: u8, resp: u8) -> Option<u8>
        ensures { (r : Recording) (st : LineState) → Stands self.now r
            → result ≡ least_of port_rules r.header r.past (Cr port resp st) }
    {
        if !has_ace_port(&self.header, port) {
            return Some(1);
        }
        if has_error(resp) {
            return Some(2);
        }
        let kept = self.kept(port);
        unless(kept.snoops.unanswered().is_some(), Some(14))
    }

    /// The least rule of the share that a CD breaks: K1 or, of K17, that an answer with data waits
    /// for it, and that it is the last beat exactly where it says so (Arm IHI 0022E, C3.8).
    #[inline(always)]
    pub fn rule_of_cd(&self, port: u8, last: bool) -> Option<u8>
        ensures { (r : Recording) (word : ℕ) → Stands self.now r
            → result ≡ least_of port_rules r.header r.past (Cd port last word) }
    {
        if !has_ace_port(&self.header, port) {
            return Some(1);
        }
        let kept = self.kept(port);
        unless(kept.snoops.may_send(last), Some(17))
    }

    /// The snoop that the port's next CR answers, where it stands.
    #[inline(always)]
    pub fn answered(&self, port: u8) -> Option<&Snoop>
        ensures { (r : Recording) → Stands self.now r
            → option_copied result ≡ answered r.past port }
    {
        self.kept(port).snoops.unanswered()
    }

    /// The snoop that the port's next CD sends data for.
    #[inline(always)]
    pub fn sending(&self, port: u8) -> Option<Snoop>
        ensures { (r : Recording) → Stands self.now r → result ≡ sending r.past port }
    {
        self.kept(port).snoops.sending()
    }

    /// Which beat of its burst the port's next CD is, from 0.
    #[inline(always)]
    pub fn next_sent_beat(&self, port: u8) -> u8
        ensures { (r : Recording) → Stands self.now r → result ≡ next_sent_beat r.past port }
    {
        self.kept(port).snoops.beat()
    }

    /// A memory update of the port on the line is outstanding.
    #[inline(always)]
    pub fn has_update(&self, port: u8, line: u32) -> bool
        ensures { (r : Recording) → Stands self.now r
            → result ≡ has_update r.header r.past port line }
    {
        has_update_on(self.writes(port), line)
    }

    /// The port has a write of the line with B and without WK: it may not be snooped (Arm IHI
    /// 0022E, C6).
    #[inline(always)]
    pub fn owes_wack(&self, port: u8, line: u32) -> bool
        ensures { (r : Recording) → Stands self.now r
            → result ≡ owes_wack r.header r.past port line }
    {
        has_complete_on(self.writes(port), line)
    }
}
