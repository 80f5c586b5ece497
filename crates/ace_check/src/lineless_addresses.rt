//! The ARs and AWs without a line: one of DVM moves what is kept of its port, and of the messages
//! and Syncs of DVM, one of a barrier what is kept of its port and of the barriers.

ghost use Rattle.std.specs.Prelude.{◌≡◌, None, Some, IfOk, true, length};
ghost use Rattle.std.specs.Result.{result_err};
ghost use Rattle.ace_codes.specs.Reads.{ar_kind_of};
ghost use Rattle.ace_event.specs.declared.event.Event.TheVariants.{Ar, Aw};
ghost use Rattle.ace_event.specs.declared.header.Header.{Header};
ghost use Rattle.ace_model.specs.Accepted.{least_broken, least_of};
ghost use Rattle.ace_model.specs.AddressRules.{k1};
ghost use Rattle.ace_model.specs.Barriers.{is_barrier_half};
ghost use Rattle.ace_model.specs.Kinds.{is_line_read};
ghost use Rattle.ace_model.specs.Shares.{system_rules};
ghost use Rattle.ace_model.specs.Trace.{Trace, option_filter};
ghost use Rattle.ace_model.specs.Transactions.{issued, read_kind};
ghost use Rattle.ace_portck.specs.LineWrites.{line_write_kind};
ghost use Rattle.ace_portck.specs.Targets.{Recording};
ghost use Rattle.ace_sysck.specs.Stands.{Stands as SystemTells};
ghost use Rattle.ace_check.specs.Addresses.{IsLinelessRead, ar_of};
ghost use Rattle.ace_check.specs.Heard.{IsHeard};
ghost use Rattle.ace_check.specs.Shares.{SharesTell};

use crate::heard::{Heard, found_unless};
use crate::shares::Shares;
use ace_codes::{ArKind, read_ar, read_aw};
use ace_event::{Channel, Event};
use ace_model::Transaction;
use ace_sysck::SysCheck;

/// The least rule about the system that the AR of a read of this kind breaks, which has no line: K9
/// or K38.
#[inline(always)]
fn system_rule_of_ar(system: &SysCheck, read: &Transaction, kind: ArKind) -> Option<u8>
    ensures { (r : Recording) → SystemTells system.now r
        → IsLinelessRead (length r.past) (ar_of read.now) read.now kind
        → k1 r.header r.past (ar_of read.now) ≡ true
        → result ≡ least_of system_rules r.header r.past (ar_of read.now) }
{
    match kind {
        ArKind::DvmMessage => {
            system.rule_of_message_ar(read.port, read.addr, read.dom, read.bar)
        }
        ArKind::DvmComplete => system.rule_of_completion_ar(read.port, read.addr),
        _ => system.rule_of_half(read),
    }
}

impl Shares {
    /// The read that an AR without a line issues, and its kind; or else the least rule that the AR
    /// breaks: K1 to K4 and K7 look at it by its port, K9 and K38 by the system.
    #[inline(always)]
    pub(crate) fn judged_lineless_ar(
        &self,
        port: u8,
        id: u8,
        addr: u32,
        snoop: u8,
        dom: u8,
        bar: u8,
        lock: bool,
    ) -> Result<(Transaction, ArKind), u8>
        ensures least { (h : Header) (past : Trace) → SharesTell self.now h past
            → option_filter is_line_read (ar_kind_of snoop dom bar) ≡ None
            → result_err result ≡ least_broken h past (Ar port id addr snoop dom bar lock) }
        ensures found { (h : Header) (past : Trace) → SharesTell self.now h past
            → option_filter is_line_read (ar_kind_of snoop dom bar) ≡ None
            → IfOk result (λ x.
            IsLinelessRead (length past) (Ar port id addr snoop dom bar lock) x.0 x.1) }
    {
        let kind = read_ar(snoop, dom, bar);
        if let Some(rule) = self.ports.rule_of_ar(port, id, addr, kind, lock) {
            return Err(rule);
        }
        let Some(kind) = kind else {
            return Err(2);
        };
        let read = Transaction {
            place: self.ports.place(),
            port,
            chan: Channel::Read,
            id,
            addr,
            snoop,
            dom,
            bar,
            lock,
        };
        found_unless((read, kind), system_rule_of_ar(&self.system, &read, kind))
    }

    /// The half of a barrier that an AW without a line issues; or else the least rule that the AW
    /// breaks: K1 to K4 look at it by its port, K9 by the barriers of its port.
    #[inline(always)]
    pub(crate) fn judged_lineless_aw(
        &self,
        port: u8,
        id: u8,
        addr: u32,
        snoop: u8,
        dom: u8,
        bar: u8,
    ) -> Result<Transaction, u8>
        ensures least { (h : Header) (past : Trace) → SharesTell self.now h past
            → line_write_kind snoop dom bar ≡ None
            → result_err result ≡ least_broken h past (Aw port id addr snoop dom bar) }
        ensures found { (h : Header) (past : Trace) → SharesTell self.now h past
            → line_write_kind snoop dom bar ≡ None
            → IfOk result (λ x. (issued (length past) (Aw port id addr snoop dom bar) ≡ Some x)
            × (is_barrier_half x ≡ true)) }
    {
        let kind = read_aw(snoop, dom, bar);
        if let Some(rule) = self.ports.rule_of_aw(port, id, addr, kind) {
            return Err(rule);
        }
        let half = Transaction {
            place: self.ports.place(),
            port,
            chan: Channel::Write,
            id,
            addr,
            snoop,
            dom,
            bar,
            lock: false,
        };
        found_unless(half, self.system.rule_of_half(&half))
    }

    /// Hears an AR without a line.
    #[inline(never)]
    pub(crate) fn hear_lineless_ar(
        &mut self,
        port: u8,
        id: u8,
        addr: u32,
        snoop: u8,
        dom: u8,
        bar: u8,
        lock: bool,
    ) -> Heard
        ensures { option_filter is_line_read (ar_kind_of snoop dom bar) ≡ None
            → IsHeard self.old (Ar port id addr snoop dom bar lock) self.new result }
    {
        let (read, kind) = match self.judged_lineless_ar(port, id, addr, snoop, dom, bar, lock) {
            Ok(found) => found,
            Err(rule) => return Heard::Broken(rule),
        };
        self.ports.hear(&Event::Ar {
            port,
            id,
            addr,
            snoop,
            dom,
            bar,
            lock,
        });
        match kind {
            ArKind::DvmMessage => {
                self.system.begin_message(&read);
                Heard::Fine
            }
            ArKind::DvmComplete => {
                self.system.begin_completion(port, id);
                Heard::Fine
            }
            _ => {
                self.system.begin_barrier(&read);
                Heard::Fine
            }
        }
    }

    /// Hears an AW without a line.
    #[inline(never)]
    pub(crate) fn hear_lineless_aw(
        &mut self,
        port: u8,
        id: u8,
        addr: u32,
        snoop: u8,
        dom: u8,
        bar: u8,
    ) -> Heard
        ensures { line_write_kind snoop dom bar ≡ None
            → IsHeard self.old (Aw port id addr snoop dom bar) self.new result }
    {
        let half = match self.judged_lineless_aw(port, id, addr, snoop, dom, bar) {
            Ok(found) => found,
            Err(rule) => return Heard::Broken(rule),
        };
        self.ports.hear(&Event::Aw {
            port,
            id,
            addr,
            snoop,
            dom,
            bar,
        });
        self.system.begin_barrier(&half);
        Heard::Fine
    }
}
