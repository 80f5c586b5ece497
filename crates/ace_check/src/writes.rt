//! Ws: a W moves nothing but what is kept of its port.

ghost use Rattle.std.specs.Prelude.{◌≡◌};
ghost use Rattle.ace_event.specs.declared.event.Event.TheVariants.{W};
ghost use Rattle.ace_check.specs.Heard.{IsHeard};

use crate::heard::Heard;
use crate::shares::Shares;
use ace_event::Event;

impl Shares {
    ghost use Rattle.std.specs.Prelude.{Bool, ℕ, true};
    ghost use Rattle.ace_event.specs.declared.header.Header.{Header};
    ghost use Rattle.ace_model.specs.Accepted.{least_broken, least_of};
    ghost use Rattle.ace_model.specs.AddressRules.{k1};
    ghost use Rattle.ace_model.specs.Shares.{line_rules};
    ghost use Rattle.ace_model.specs.Trace.{Trace};
    ghost use Rattle.ace_check.specs.Shares.{SharesTell};

    /// The least rule about its line that a W breaks: K11, where its write is a memory update.
    #[inline(always)]
    fn line_rule_of_w(&self, port: u8, word: u128) -> Option<u8>
        ensures { (h : Header) (past : Trace) (strb : ℕ) (last : Bool) → SharesTell self.now h past
            → k1 h past (W port strb last word) ≡ true
            → result ≡ least_of line_rules h past (W port strb last word) }
    {
        let Some(write) = self.ports.next_write(port) else {
            return None;
        };
        let beat = self.ports.next_write_beat(port);
        self.lines.rule_of_w(&write, beat, word)
    }

    /// The least rule that a W breaks: K1 or K11 of its port, or K11 of its line, where its write
    /// is a memory update.
    #[inline(always)]
    pub(crate) fn rule_of_w(&self, port: u8, strb: u16, last: bool, word: u128) -> Option<u8>
        ensures { (h : Header) (past : Trace) → SharesTell self.now h past
            → result ≡ least_broken h past (W port strb last word) }
    {
        if let Some(rule) = self.ports.rule_of_w(port, strb, last) {
            return Some(rule);
        }
        self.line_rule_of_w(port, word)
    }

    /// Hears a W.
    #[inline(never)]
    pub(crate) fn hear_w(&mut self, port: u8, strb: u16, last: bool, word: u128) -> Heard
        ensures { IsHeard self.old (W port strb last word) self.new result }
    {
        if let Some(rule) = self.rule_of_w(port, strb, last, word) {
            return Heard::Broken(rule);
        }
        self.ports.hear(&Event::W {
            port,
            strb,
            last,
            word,
        });
        Heard::Fine
    }
}
