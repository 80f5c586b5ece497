//! MEMs: a MEM moves what is kept of its line and of the events that opened memory.

ghost use Rattle.std.specs.Prelude.{◌≡◌};
ghost use Rattle.ace_event.specs.declared.event.Event.TheVariants.{Mem};
ghost use Rattle.ace_event.specs.declared.header.Header.{Header};
ghost use Rattle.ace_event.specs.declared.line.Line.{Line};
ghost use Rattle.ace_model.specs.Accepted.{least_broken};
ghost use Rattle.ace_model.specs.Trace.{Trace};
ghost use Rattle.ace_check.specs.Heard.{IsHeard};
ghost use Rattle.ace_check.specs.Shares.{SharesTell};

use crate::heard::Heard;
use crate::shares::Shares;
use ace_event::{Event, Line};

impl Shares {
    /// The least rule that a MEM breaks: K3.
    #[inline(always)]
    pub(crate) fn rule_of_mem(&self, addr: u32) -> Option<u8>
        ensures { (h : Header) (past : Trace) (line : Line) → SharesTell self.now h past
            → result ≡ least_broken h past (Mem addr line) }
    {
        self.ports.rule_of_mem(addr)
    }

    /// Hears a MEM, whose line may be a new one.
    #[inline(never)]
    pub(crate) fn hear_mem(&mut self, addr: u32, line: &Line) -> Heard
        ensures { IsHeard self.old (Mem addr line.now) self.new result }
    {
        if let Some(rule) = self.rule_of_mem(addr) {
            return Heard::Broken(rule);
        }
        let place = self.lines.place(Some(addr));
        let Ok(place) = self.lines.make_record(addr, place) else {
            return Heard::NoMemory;
        };
        self.ports.hear(&Event::Mem { addr, line: *line });
        self.lines.hear_mem(place, line);
        Heard::Fine
    }
}
