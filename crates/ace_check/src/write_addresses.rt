//! AWs: an AW of a line write moves what is kept of its port and of its line.

ghost use Rattle.std.specs.Prelude.{◌≡◌, ℕ, Some};
ghost use Rattle.ace_event.specs.declared.event.Event.TheVariants.{Aw};
ghost use Rattle.ace_event.specs.declared.header.Header.{Header};
ghost use Rattle.ace_model.specs.Accepted.{least_broken};
ghost use Rattle.ace_model.specs.Trace.{Trace};
ghost use Rattle.ace_portck.specs.LineWrites.{line_write_kind};
ghost use Rattle.ace_lineck.specs.Stands.{place_on};
ghost use Rattle.ace_check.specs.Heard.{IsHeard};
ghost use Rattle.ace_check.specs.Shares.{SharesTell};

use crate::heard::Heard;
use crate::shares::{Shares, lesser};
use ace_codes::AwKind;
use ace_event::Event;
use ace_lineck::is_no_snoop_write;
use ace_portck::line_write_kind;

impl Shares {
    /// The least rule that an AW breaks.
    pub(crate) fn rule_of_aw(
        &self,
        port: u8,
        id: u8,
        addr: u32,
        snoop: u8,
        dom: u8,
        bar: u8,
    ) -> Option<u8>
        ensures { (h : Header) (past : Trace) → SharesTell self.now h past
            → result ≡ least_broken h past (Aw port id addr snoop dom bar) }
    {
        let Some(kind) = line_write_kind(snoop, dom, bar) else {
            let judged = self.judged_lineless_aw(port, id, addr, snoop, dom, bar);
            return judged.err();
        };
        let place = self.lines.place(Some(addr));
        self.rule_of_line_aw(port, id, addr, kind, place)
    }

    /// The same, of a line write of the kind: K1 to K5 and K10 look at it by its port, K6 and K8 by
    /// its line, whose place is given.
    #[inline(always)]
    fn rule_of_line_aw(
        &self,
        port: u8,
        id: u8,
        addr: u32,
        kind: AwKind,
        place: Option<usize>,
    ) -> Option<u8>
        ensures { (h : Header) (past : Trace) (snoop dom bar : ℕ) → SharesTell self.now h past
            → place ≡ place_on self.now.lines (Some addr)
            → line_write_kind snoop dom bar ≡ Some kind
            → result ≡ least_broken h past (Aw port id addr snoop dom bar) }
    {
        let at_port = self.ports.rule_of_aw(port, id, addr, Some(kind));
        let on_line = self.lines.rule_of_aw(port, kind, place);
        lesser(at_port, on_line)
    }

    /// Hears an AW. The line of a line write may be a new one.
    #[inline(never)]
    pub(crate) fn hear_aw(
        &mut self,
        port: u8,
        id: u8,
        addr: u32,
        snoop: u8,
        dom: u8,
        bar: u8,
    ) -> Heard
        ensures { IsHeard self.old (Aw port id addr snoop dom bar) self.new result }
    {
        let Some(kind) = line_write_kind(snoop, dom, bar) else {
            return self.hear_lineless_aw(port, id, addr, snoop, dom, bar);
        };
        let place = self.lines.place(Some(addr));
        if let Some(rule) = self.rule_of_line_aw(port, id, addr, kind, place) {
            return Heard::Broken(rule);
        }
        if self.is_line_too_many(place) {
            return Heard::TooManyLines;
        }
        let Ok(place) = self.lines.make_record(addr, place) else {
            return Heard::NoMemory;
        };
        self.ports.hear(&Event::Aw {
            port,
            id,
            addr,
            snoop,
            dom,
            bar,
        });
        self.lines.hear_address(is_no_snoop_write(kind), place);
        Heard::Fine
    }
}
