//! Gs: a G moves what is kept of its port and its line, and with lock 1 that of exclusive ones.

ghost use Rattle.std.specs.Prelude.{◌≡◌, IfOk};
ghost use Rattle.std.specs.Result.{result_err};
ghost use Rattle.ace_event.specs.declared.event.Event.TheVariants.{G};
ghost use Rattle.ace_model.specs.Accepted.{least_broken};
ghost use Rattle.ace_portck.specs.Stands.{Stands as PortsTell};
ghost use Rattle.ace_portck.specs.Targets.{Recording};
ghost use Rattle.ace_lineck.specs.Stands.{Stands as LinesTell};
ghost use Rattle.ace_sysck.specs.Stands.{Stands as SystemTells};
ghost use Rattle.ace_check.specs.Found.{IsServed};
ghost use Rattle.ace_check.specs.Heard.{IsHeard};

use crate::heard::{Heard, found_unless};
use crate::shares::Shares;
use ace_event::{Channel, Event};
use ace_lineck::LineCheck;
use ace_portck::{PortCheck, Progress};
use ace_sysck::SysCheck;

/// The outstanding transaction of a G and the place of its line, or else the least rule that the G
/// breaks: K1 of its port, K12 of its line, or K35 of the barriers before it.
#[inline(always)]
pub(crate) fn judged_g<'a>(
    ports: &'a PortCheck,
    lines: &LineCheck,
    system: &SysCheck,
    port: u8,
    chan: Channel,
    id: u8,
) -> Result<(&'a Progress, Option<usize>), u8>
    ensures least { (r : Recording) → PortsTell ports.now r → LinesTell lines.now r
        → SystemTells system.now r
        → result_err result ≡ least_broken r.header r.past (G port chan id) }
    ensures found { (r : Recording) → PortsTell ports.now r
        → IfOk result (λ x. IsServed lines.now r port chan id x.0.now x.1) }
{
    let Some(x) = ports.outstanding(port, chan, id) else {
        let absent = lines.rule_of_no_g();
        return Err(ports.rule_of_g(port).unwrap_or(absent));
    };
    let place = lines.place(Some(x.transaction.addr));
    if let Some(rule) = lines.rule_of_g(&x.transaction, place) {
        return Err(rule);
    }
    found_unless((x, place), system.rule_of_g(&x.transaction))
}

impl Shares {
    /// Hears a G.
    #[inline(never)]
    pub(crate) fn hear_g(&mut self, port: u8, chan: Channel, id: u8) -> Heard
        ensures { IsHeard self.old (G port chan id) self.new result }
    {
        let judged = judged_g(&self.ports, &self.lines, &self.system, port, chan, id);
        let (progress, place) = match judged {
            Ok(found) => found,
            Err(rule) => return Heard::Broken(rule),
        };
        let x = progress.transaction;
        if self.system.make_lock_room(&x).is_err() {
            return Heard::NoMemory;
        }
        let _taken = self.system.hear_grant(&x);
        self.ports.hear(&Event::G { port, chan, id });
        self.lines.hear_grant(&x, place);
        Heard::Fine
    }
}
