//! Ss: an S moves the state that its port has the line in, and the port's monitor where that is I.

ghost use Rattle.std.specs.Prelude.{◌≡◌};
ghost use Rattle.ace_event.specs.declared.event.Event.TheVariants.{S};
ghost use Rattle.ace_check.specs.Heard.{IsHeard};

use crate::heard::Heard;
use crate::shares::Shares;
use ace_codes::LineState;
use ace_event::Event;

impl Shares {
    ghost use Rattle.ace_event.specs.declared.header.Header.{Header};
    ghost use Rattle.ace_model.specs.Accepted.{least_broken};
    ghost use Rattle.ace_model.specs.Trace.{Trace};
    ghost use Rattle.ace_check.specs.Shares.{SharesTell};

    /// The least rule that an S breaks: K1 or K3 of its port, K29 of its line.
    #[inline(always)]
    pub(crate) fn rule_of_s(&self, port: u8, addr: u32, st: LineState) -> Option<u8>
        ensures { (h : Header) (past : Trace) → SharesTell self.now h past
            → result ≡ least_broken h past (S port addr st) }
    {
        if let Some(rule) = self.ports.rule_of_s(port, addr) {
            return Some(rule);
        }
        let drops = self.ports.drops_update(port, addr, st);
        let place = self.lines.place(Some(addr));
        self.lines.rule_of_s(port, st, place, drops)
    }

    /// Hears an S.
    #[inline(never)]
    pub(crate) fn hear_s(&mut self, port: u8, addr: u32, st: LineState) -> Heard
        ensures { IsHeard self.old (S port addr st) self.new result }
    {
        if let Some(rule) = self.rule_of_s(port, addr, st) {
            return Heard::Broken(rule);
        }
        let place = self.lines.place(Some(addr));
        self.ports.hear(&Event::S { port, addr, st });
        self.lines.hear_change(port, st, place);
        self.system.change(port, addr, st);
        Heard::Fine
    }
}
