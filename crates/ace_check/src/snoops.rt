//! ACs: an AC moves what is kept of its port, and of its line or, one of DVM, of DVM messages.

ghost use Rattle.std.specs.Prelude.{◌≡◌, ℕ, None, Some, IfOk};
ghost use Rattle.std.specs.Result.{result_err};
ghost use Rattle.ace_event.specs.declared.event.Event.TheVariants.{Ac};
ghost use Rattle.ace_event.specs.declared.header.Header.{Header};
ghost use Rattle.ace_model.specs.Accepted.{least_broken, least_of};
ghost use Rattle.ace_model.specs.Lines.{has_failed_on};
ghost use Rattle.ace_model.specs.Shares.{port_rules};
ghost use Rattle.ace_model.specs.Trace.{Trace};
ghost use Rattle.ace_lineck.specs.Stands.{place_on};
ghost use Rattle.ace_check.specs.Heard.{IsHeard};
ghost use Rattle.ace_check.specs.Shares.{SharesTell};

use crate::heard::{Heard, found_unless};
use crate::shares::Shares;
use ace_codes::{SnoopKind, read_ac};
use ace_event::Event;
use ace_model::kinds::is_line_snoop;

impl Shares {
    ghost use Rattle.std.specs.Prelude.{true};
    ghost use Rattle.ace_codes.specs.Snoops.{ac_kind_of};
    ghost use Rattle.ace_model.specs.Kinds.{is_line_snoop};

    /// The granted transaction of the line, whose record stands at the place, is an exclusive store
    /// that failed. Only one with lock 1 is looked up.
    #[inline(always)]
    fn has_failed_exclusively(&self, place: Option<usize>) -> bool
        ensures { (h : Header) (past : Trace) (line : ℕ) → SharesTell self.now h past
            → place ≡ place_on self.now.lines (Some line)
            → result ≡ has_failed_on h past line }
    {
        self.lines.is_granted_exclusively(place) && self.has_failed_at(place)
    }

    /// The least rule that a line snoop of the kind breaks, which keeps the rules of its port: K13
    /// of its line, whose record stands at the place, or K36.
    #[inline(always)]
    fn rule_of_line_snoop(
        &self,
        port: u8,
        addr: u32,
        snoop: u8,
        kind: SnoopKind,
        place: Option<usize>,
    ) -> Option<u8>
        ensures { (h : Header) (past : Trace) → SharesTell self.now h past
            → ac_kind_of snoop ≡ Some kind → is_line_snoop kind ≡ true
            → None ≡ least_of port_rules h past (Ac port addr snoop)
            → place ≡ place_on self.now.lines (Some addr)
            → result ≡ least_broken h past (Ac port addr snoop) }
    {
        let owes = self.ports.owes_wack(port, addr);
        let failed = self.has_failed_exclusively(place);
        if let Some(rule) = self.lines.rule_of_ac(place, port, snoop, owes, failed) {
            return Some(rule);
        }
        self.system.rule_of_ac(port, addr, kind)
    }

    /// The kind of an AC, and the place of the line that it snoops; or else the least rule that the
    /// AC breaks: K1 to K3 of its port, K13 of its line, or K36 or K39.
    #[inline(always)]
    pub(crate) fn judged_ac(
        &self,
        port: u8,
        addr: u32,
        snoop: u8,
    ) -> Result<(SnoopKind, Option<usize>), u8>
        ensures least { (h : Header) (past : Trace) → SharesTell self.now h past
            → result_err result ≡ least_broken h past (Ac port addr snoop) }
        ensures found { IfOk result (λ x. (ac_kind_of snoop ≡ Some x.0)
            × (is_line_snoop x.0 ≡ true → x.1 ≡ place_on self.now.lines (Some addr))) }
    {
        let kind = read_ac(snoop);
        if let Some(rule) = self.ports.rule_of_ac(port, addr, kind) {
            return Err(rule);
        }
        let Some(kind) = kind else {
            return Err(2);
        };
        if !is_line_snoop(kind) {
            return found_unless((kind, None), self.system.rule_of_ac(port, addr, kind));
        }
        let place = self.lines.place(Some(addr));
        let rule = self.rule_of_line_snoop(port, addr, snoop, kind, place);
        found_unless((kind, place), rule)
    }

    /// Hears an AC.
    #[inline(never)]
    pub(crate) fn hear_ac(&mut self, port: u8, addr: u32, snoop: u8) -> Heard
        ensures { IsHeard self.old (Ac port addr snoop) self.new result }
    {
        let (kind, place) = match self.judged_ac(port, addr, snoop) {
            Ok(found) => found,
            Err(rule) => return Heard::Broken(rule),
        };
        if self.ports.make_snoop_room(port).is_err() {
            return Heard::NoMemory;
        }
        self.ports.hear(&Event::Ac { port, addr, snoop });
        if is_line_snoop(kind) {
            self.lines.hear_snoop(place, port);
            return Heard::Fine;
        }
        self.system.hear_message_snoop(port, kind);
        Heard::Fine
    }
}
