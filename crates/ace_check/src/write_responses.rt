//! Bs: a B answers a line write, which it may end, or half of a barrier, which it may complete.

ghost use Rattle.std.specs.Prelude.{◌≡◌, Some, option_map, IfOk};
ghost use Rattle.std.specs.Result.{result_err};
ghost use Rattle.ace_event.specs.declared.event.Channel.TheVariants.{Write};
ghost use Rattle.ace_event.specs.declared.event.Event.TheVariants.{B};
ghost use Rattle.ace_model.specs.Accepted.{least_broken};
ghost use Rattle.ace_model.specs.Transactions.{outstanding};
ghost use Rattle.ace_portck.specs.LineWrites.{line_write};
ghost use Rattle.ace_portck.specs.Stands.{Stands as PortsTell};
ghost use Rattle.ace_portck.specs.Targets.{Recording, progress_of};
ghost use Rattle.ace_lineck.specs.Stands.{Stands as LinesTell};
ghost use Rattle.ace_sysck.specs.Stands.{Stands as SystemTells};
ghost use Rattle.ace_check.specs.Heard.{IsHeard};

use crate::heard::{Heard, found_unless};
use crate::shares::Shares;
use ace_codes::AwKind;
use ace_event::{Channel, Event};
use ace_lineck::LineCheck;
use ace_portck::{PortCheck, Progress, line_write};
use ace_sysck::SysCheck;

/// The outstanding write of a B, with its kind if it is a line write; or else the least rule that
/// the B breaks: K1, K2 or K26 of its port, K26 of its line, or K34 of half of a barrier.
#[inline(always)]
pub(crate) fn judged_b<'a>(
    ports: &'a PortCheck,
    lines: &LineCheck,
    system: &SysCheck,
    port: u8,
    id: u8,
    resp: u8,
) -> Result<(&'a Progress, Option<AwKind>), u8>
    ensures least { (r : Recording) → PortsTell ports.now r → LinesTell lines.now r
        → SystemTells system.now r
        → result_err result ≡ least_broken r.header r.past (B port id resp) }
    ensures found { (r : Recording) → PortsTell ports.now r
        → IfOk result (λ x. (option_map (progress_of r.header r.past)
        (outstanding r.header r.past port Write id) ≡ Some x.0.now)
        × (line_write x.0.now.transaction ≡ x.1)) }
{
    let Some(x) = ports.outstanding(port, Channel::Write, id) else {
        return Err(ports.rule_of_no_b(port, resp));
    };
    if let Some(rule) = ports.rule_of_b(port, x, resp) {
        return Err(rule);
    }
    let Some(kind) = line_write(&x.transaction) else {
        let unordered = ports.first_unordered(x.transaction.port);
        let incomplete = ports.first_incomplete(x.transaction.port);
        let rule = system.rule_of_half_b(&x.transaction, unordered, incomplete);
        return found_unless((x, None), rule);
    };
    found_unless((x, Some(kind)), lines.rule_of_b(x, kind))
}

impl Shares {
    /// Hears a B.
    #[inline(never)]
    pub(crate) fn hear_b(&mut self, port: u8, id: u8, resp: u8) -> Heard
        ensures { IsHeard self.old (B port id resp) self.new result }
    {
        let judged = judged_b(&self.ports, &self.lines, &self.system, port, id, resp);
        let (x, kind) = match judged {
            Ok(found) => found,
            Err(rule) => return Heard::Broken(rule),
        };
        match kind {
            None => {
                self.system.complete_transaction(&x.transaction);
                self.ports.hear(&Event::B { port, id, resp });
                Heard::Fine
            }
            Some(_) => {
                self.lines.hear_response(x);
                self.ports.hear(&Event::B { port, id, resp });
                Heard::Fine
            }
        }
    }
}
