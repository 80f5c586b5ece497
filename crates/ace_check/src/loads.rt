//! Ls: an L moves nothing but what is kept of its port, and the port's monitor where it is
//! exclusive.

ghost use Rattle.std.specs.Prelude.{◌≡◌};
ghost use Rattle.ace_event.specs.declared.event.Event.TheVariants.{L};
ghost use Rattle.ace_check.specs.Heard.{IsHeard};

use crate::heard::Heard;
use crate::shares::Shares;
use ace_event::Event;

impl Shares {
    ghost use Rattle.std.specs.Prelude.{Bool, ℕ};
    ghost use Rattle.ace_event.specs.declared.header.Header.{Header};
    ghost use Rattle.ace_model.specs.Accepted.{least_broken};
    ghost use Rattle.ace_model.specs.Trace.{Trace};
    ghost use Rattle.ace_check.specs.Shares.{SharesTell};

    /// The least rule that an L breaks: K1 or K3 of its port, K30 or K31 of its line.
    #[inline(always)]
    pub(crate) fn rule_of_l(&self, port: u8, addr: u32, w: u8, word: u128) -> Option<u8>
        ensures { (h : Header) (past : Trace) (x : Bool) → SharesTell self.now h past
            → result ≡ least_broken h past (L port addr w x word) }
    {
        if let Some(rule) = self.ports.rule_of_l(port, addr) {
            return Some(rule);
        }
        self.lines.rule_of_l(port, addr, w, word)
    }

    /// Hears an L.
    #[inline(never)]
    pub(crate) fn hear_l(&mut self, port: u8, addr: u32, w: u8, x: bool, word: u128) -> Heard
        ensures { IsHeard self.old (L port addr w x word) self.new result }
    {
        if let Some(rule) = self.rule_of_l(port, addr, w, word) {
            return Heard::Broken(rule);
        }
        self.ports.hear(&Event::L {
            port,
            addr,
            w,
            x,
            word,
        });
        self.system.load(port, addr, x);
        Heard::Fine
    }
}
