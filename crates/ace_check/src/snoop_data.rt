//! CDs: a CD moves what is kept of its port, and the fourth of a burst the grant of its line.

ghost use Rattle.std.specs.Prelude.{◌≡◌};
ghost use Rattle.ace_event.specs.declared.event.Event.TheVariants.{Cd};
ghost use Rattle.ace_check.specs.Heard.{IsHeard};

use crate::heard::{Heard, found_unless};
use crate::shares::Shares;
use ace_event::Event;
use ace_model::Snoop;

impl Shares {
    ghost use Rattle.std.specs.Prelude.{Some, IfOk};
    ghost use Rattle.std.specs.Result.{result_err};
    ghost use Rattle.ace_event.specs.declared.header.Header.{Header};
    ghost use Rattle.ace_model.specs.declared.snoops.Snoop.{Snoop};
    ghost use Rattle.ace_model.specs.Accepted.{least_broken};
    ghost use Rattle.ace_model.specs.Replies.{next_sent_beat};
    ghost use Rattle.ace_model.specs.Trace.{Trace};
    ghost use Rattle.ace_portck.specs.Targets.{sending};
    ghost use Rattle.ace_lineck.specs.Stands.{place_on};
    ghost use Rattle.ace_check.specs.Shares.{SharesTell};

    /// The least rule that a CD breaks which is this beat of the data for a snoop: K1 or K17 of its
    /// port, or K17 of its line, whose record stands at the place.
    #[inline(always)]
    fn rule_of_beat(
        &self,
        port: u8,
        last: bool,
        word: u128,
        beat: u8,
        place: Option<usize>,
    ) -> Option<u8>
        ensures { (h : Header) (past : Trace) (s : Snoop) → SharesTell self.now h past
            → sending past port ≡ Some s → beat ≡ next_sent_beat past port
            → place ≡ place_on self.now.lines (Some s.addr)
            → result ≡ least_broken h past (Cd port last word) }
    {
        if let Some(rule) = self.ports.rule_of_cd(port, last) {
            return Some(rule);
        }
        self.lines.rule_of_cd(place, port, beat, word)
    }

    /// The snoop that a CD sends data for, the place of its line and the beat; or else the least
    /// rule that the CD breaks.
    #[inline(always)]
    pub(crate) fn judged_cd(
        &self,
        port: u8,
        last: bool,
        word: u128,
    ) -> Result<(Snoop, Option<usize>, u8), u8>
        ensures least { (h : Header) (past : Trace) → SharesTell self.now h past
            → result_err result ≡ least_broken h past (Cd port last word) }
        ensures found { (h : Header) (past : Trace) → SharesTell self.now h past
            → IfOk result (λ x. (sending past port ≡ Some x.0) × (x.2 ≡ next_sent_beat past port)
            × (x.1 ≡ place_on self.now.lines (Some x.0.addr))) }
    {
        let Some(snoop) = self.ports.sending(port) else {
            return Err(self.ports.rule_of_cd(port, true).unwrap_or(17));
        };
        let beat = self.ports.next_sent_beat(port);
        let place = self.lines.place(Some(snoop.addr));
        let rule = self.rule_of_beat(port, last, word, beat, place);
        found_unless((snoop, place, beat), rule)
    }

    /// Hears a CD.
    #[inline(never)]
    pub(crate) fn hear_cd(&mut self, port: u8, last: bool, word: u128) -> Heard
        ensures { IsHeard self.old (Cd port last word) self.new result }
    {
        let (_, place, beat) = match self.judged_cd(port, last, word) {
            Ok(found) => found,
            Err(rule) => return Heard::Broken(rule),
        };
        self.ports.hear(&Event::Cd { port, last, word });
        self.lines.hear_sent(place, port, beat);
        Heard::Fine
    }
}
