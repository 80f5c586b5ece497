//! ARs: an AR of a line read moves what is kept of its port and of its line, and is the last read
//! of its name.

ghost use Rattle.std.specs.Prelude.{◌≡◌, ℕ, Some, true};
ghost use Rattle.ace_codes.specs.Reads.{ar_kind_of};
ghost use Rattle.ace_event.specs.declared.event.Event.TheVariants.{Ar};
ghost use Rattle.ace_event.specs.declared.header.Header.{Header};
ghost use Rattle.ace_model.specs.Accepted.{least_broken};
ghost use Rattle.ace_model.specs.Kinds.{is_line_read};
ghost use Rattle.ace_model.specs.Trace.{Trace};
ghost use Rattle.ace_lineck.specs.Stands.{place_on};
ghost use Rattle.ace_check.specs.Heard.{IsHeard};
ghost use Rattle.ace_check.specs.Shares.{SharesTell};

use crate::heard::Heard;
use crate::line_addresses::line_read_kind;
use crate::shares::{Shares, lesser};
use ace_codes::ArKind;
use ace_event::Event;
use ace_lineck::is_no_snoop_read;

impl Shares {
    /// The least rule that an AR breaks.
    pub(crate) fn rule_of_ar(
        &self,
        port: u8,
        id: u8,
        addr: u32,
        snoop: u8,
        dom: u8,
        bar: u8,
        lock: bool,
    ) -> Option<u8>
        ensures { (h : Header) (past : Trace) → SharesTell self.now h past
            → result ≡ least_broken h past (Ar port id addr snoop dom bar lock) }
    {
        let Some(kind) = line_read_kind(snoop, dom, bar) else {
            let judged = self.judged_lineless_ar(port, id, addr, snoop, dom, bar, lock);
            return judged.err();
        };
        let place = self.lines.place(Some(addr));
        self.rule_of_line_ar(port, id, addr, kind, lock, place)
    }

    /// The same, of a line read of the kind: K1 to K5 and K7 look at it by its port, K6 and K8 by
    /// its line, whose place is given.
    #[inline(always)]
    fn rule_of_line_ar(
        &self,
        port: u8,
        id: u8,
        addr: u32,
        kind: ArKind,
        lock: bool,
        place: Option<usize>,
    ) -> Option<u8>
        ensures { (h : Header) (past : Trace) (snoop dom bar : ℕ) → SharesTell self.now h past
            → place ≡ place_on self.now.lines (Some addr)
            → ar_kind_of snoop dom bar ≡ Some kind → is_line_read kind ≡ true
            → result ≡ least_broken h past (Ar port id addr snoop dom bar lock) }
    {
        let at_port = self.ports.rule_of_ar(port, id, addr, Some(kind), lock);
        let on_line = self.lines.rule_of_ar(port, kind, place);
        lesser(at_port, on_line)
    }

    /// Hears an AR. The line of a line read may be a new one.
    #[inline(never)]
    pub(crate) fn hear_ar(
        &mut self,
        port: u8,
        id: u8,
        addr: u32,
        snoop: u8,
        dom: u8,
        bar: u8,
        lock: bool,
    ) -> Heard
        ensures { IsHeard self.old (Ar port id addr snoop dom bar lock) self.new result }
    {
        let Some(kind) = line_read_kind(snoop, dom, bar) else {
            return self.hear_lineless_ar(port, id, addr, snoop, dom, bar, lock);
        };
        let place = self.lines.place(Some(addr));
        if let Some(rule) = self.rule_of_line_ar(port, id, addr, kind, lock, place) {
            return Heard::Broken(rule);
        }
        if self.is_line_too_many(place) {
            return Heard::TooManyLines;
        }
        let Ok(place) = self.lines.make_record(addr, place) else {
            return Heard::NoMemory;
        };
        self.ports.hear(&Event::Ar {
            port,
            id,
            addr,
            snoop,
            dom,
            bar,
            lock,
        });
        self.lines.hear_address(is_no_snoop_read(kind), place);
        self.system.begin_line_read(port, id);
        Heard::Fine
    }
}
