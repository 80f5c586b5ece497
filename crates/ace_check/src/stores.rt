//! Ds: a D moves what is kept of its port, of the port's copy of the line, and of the port's
//! monitor where it is exclusive.

ghost use Rattle.std.specs.Prelude.{◌≡◌};
ghost use Rattle.ace_event.specs.declared.event.Event.TheVariants.{D};
ghost use Rattle.ace_check.specs.Heard.{IsHeard};

use crate::heard::Heard;
use crate::shares::Shares;
use ace_event::{Event, Line};

impl Shares {
    ghost use Rattle.std.specs.Prelude.{None, Some, is_some};
    ghost use Rattle.ace_event.specs.declared.header.Header.{Header};
    ghost use Rattle.ace_event.specs.declared.line.Line.{Line};
    ghost use Rattle.ace_model.specs.Accepted.{least_broken};
    ghost use Rattle.ace_model.specs.Trace.{Trace, is_some_and};
    ghost use Rattle.ace_portck.specs.Targets.{own_on};
    ghost use Rattle.ace_lineck.specs.Holders.{awaits_store};
    ghost use Rattle.ace_check.specs.Shares.{SharesTell};

    /// The least rule that a D breaks: K1 or K3 of its port, K32 of its line, or K33 of its port's
    /// monitor. A D beside a transaction of its port on the line that breaks none is the store of a
    /// MakeUnique.
    #[inline(always)]
    pub(crate) fn rule_of_d(&self, port: u8, addr: u32, strobe: u64, x: bool) -> Option<u8>
        ensures least { (h : Header) (past : Trace) (line : Line) → SharesTell self.now h past
            → result ≡ least_broken h past (D port addr strobe x line) }
        ensures own { (h : Header) (past : Trace) → SharesTell self.now h past → result ≡ None
            → is_some (own_on h past port (Some addr))
            ≡ is_some_and (own_on h past port (Some addr)) awaits_store }
    {
        if let Some(rule) = self.ports.rule_of_d(port, addr) {
            return Some(rule);
        }
        let own = self.ports.own(port, addr);
        let place = self.lines.place(Some(addr));
        if let Some(rule) = self.lines.rule_of_d(port, strobe, x, own, place) {
            return Some(rule);
        }
        self.system.rule_of_d(port, addr, x)
    }

    /// Hears a D.
    #[inline(never)]
    pub(crate) fn hear_d(&mut self, port: u8, addr: u32, strobe: u64, x: bool, line: &Line) -> Heard
        ensures { IsHeard self.old (D port addr strobe x line.now) self.new result }
    {
        if let Some(rule) = self.rule_of_d(port, addr, strobe, x) {
            return Heard::Broken(rule);
        }
        let owned = self.ports.own(port, addr).is_some();
        let place = self.lines.place(Some(addr));
        self.ports.hear(&Event::D {
            port,
            addr,
            strobe,
            x,
            line: *line,
        });
        self.lines.hear_store(port, strobe, line, owned, place);
        self.system.store(port, x);
        Heard::Fine
    }
}
