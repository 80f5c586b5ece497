//! CRs: a CR moves what is kept of its port, and of the line or message of its snoop.

ghost use Rattle.std.specs.Prelude.{◌≡◌, ℕ, Some, IfOk};
ghost use Rattle.std.specs.Result.{result_err};
ghost use Rattle.ace_event.specs.declared.event.Event.TheVariants.{Cr};
ghost use Rattle.ace_event.specs.declared.header.Header.{Header};
ghost use Rattle.ace_model.specs.Accepted.{least_broken};
ghost use Rattle.ace_model.specs.Progress.{has_update};
ghost use Rattle.ace_model.specs.Trace.{Trace};
ghost use Rattle.ace_model.specs.declared.snoops.Snoop.{Snoop};
ghost use Rattle.ace_portck.specs.SnoopAnswers.{IsAnswered};
ghost use Rattle.ace_portck.specs.Targets.{line_of_snoop};
ghost use Rattle.ace_lineck.specs.Stands.{place_on};
ghost use Rattle.ace_check.specs.Heard.{IsHeard};
ghost use Rattle.ace_check.specs.Shares.{SharesTell};

use crate::heard::{Heard, found_unless};
use crate::shares::Shares;
use ace_codes::{LineState, SnoopKind, read_ac};
use ace_event::Event;
use ace_portck::snooped_line;

impl Shares {
    /// A memory update of the port on the line is outstanding, if there is a line.
    #[inline(always)]
    fn has_update(&self, port: u8, line: Option<u32>) -> bool
        ensures { (h : Header) (past : Trace) (l : ℕ) → SharesTell self.now h past
            → line ≡ Some l → result ≡ has_update h past port l }
    {
        match line {
            None => false,
            Some(line) => self.ports.has_update(port, line),
        }
    }

    /// The kind and the line of the snoop that a CR answers, with the place of the line; or else
    /// the least rule that the CR breaks: K1, K2 or K14 of its port, or K15 or K16.
    #[inline(always)]
    pub(crate) fn judged_cr(
        &self,
        port: u8,
        resp: u8,
        st: LineState,
    ) -> Result<(SnoopKind, Option<u32>, Option<usize>), u8>
        ensures least { (h : Header) (past : Trace) → SharesTell self.now h past
            → result_err result ≡ least_broken h past (Cr port resp st) }
        ensures found { (h : Header) (past : Trace) → SharesTell self.now h past
            → IfOk result (λ x. (s : Snoop) × IsAnswered past port s x.0
            × (x.1 ≡ line_of_snoop (Some s))
            × (x.2 ≡ place_on self.now.lines (line_of_snoop (Some s)))) }
    {
        if let Some(rule) = self.ports.rule_of_cr(port, resp) {
            return Err(rule);
        }
        let Some(snoop) = self.ports.answered(port) else {
            return Err(14);
        };
        let Some(kind) = read_ac(snoop.snoop) else {
            return Err(14);
        };
        let line = snooped_line(snoop, kind);
        let place = self.lines.place(line);
        let update = self.has_update(port, line);
        let rule = self.lines.rule_of_cr(port, resp, st, kind, place, update);
        found_unless((kind, line, place), rule)
    }

    /// Hears a CR.
    #[inline(never)]
    pub(crate) fn hear_cr(&mut self, port: u8, resp: u8, st: LineState) -> Heard
        ensures { IsHeard self.old (Cr port resp st) self.new result }
    {
        let (kind, line, place) = match self.judged_cr(port, resp, st) {
            Ok(found) => found,
            Err(rule) => return Heard::Broken(rule),
        };
        self.ports.hear(&Event::Cr { port, resp, st });
        self.lines.hear_snoop_answer(port, resp, st, place);
        self.system.hear_snoop_answer(port, kind, line, st);
        Heard::Fine
    }
}
