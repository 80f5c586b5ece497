//! OPs: an OP moves nothing but what is kept of its port.

ghost use Rattle.std.specs.Prelude.{◌≡◌};
ghost use Rattle.ace_event.specs.declared.event.Event.TheVariants.{Op};
ghost use Rattle.ace_check.specs.Heard.{IsHeard};

use crate::heard::Heard;
use crate::shares::Shares;
use ace_event::{Event, Outcome};

impl Shares {
    ghost use Rattle.ace_event.specs.declared.header.Header.{Header};
    ghost use Rattle.ace_event.specs.declared.event.Outcome.{Outcome};
    ghost use Rattle.ace_model.specs.Accepted.{least_broken};
    ghost use Rattle.ace_model.specs.Trace.{Trace};
    ghost use Rattle.ace_check.specs.Shares.{SharesTell};

    /// The least rule that an OP breaks: K1 or K40, both of its port.
    #[inline(always)]
    pub(crate) fn rule_of_op(&self, port: u8, k: u16) -> Option<u8>
        ensures { (h : Header) (past : Trace) (res : Outcome) → SharesTell self.now h past
            → result ≡ least_broken h past (Op port k res) }
    {
        self.ports.rule_of_op(port, k)
    }

    /// Hears an OP.
    #[inline(never)]
    pub(crate) fn hear_op(&mut self, port: u8, k: u16, res: Outcome) -> Heard
        ensures { IsHeard self.old (Op port k res) self.new result }
    {
        if let Some(rule) = self.rule_of_op(port, k) {
            return Heard::Broken(rule);
        }
        self.ports.hear(&Event::Op { port, k, res });
        Heard::Fine
    }
}
