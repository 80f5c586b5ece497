//! RKs and WKs: an acknowledge moves what is kept of its port, of its line, and of the port's
//! monitor.

ghost use Rattle.std.specs.Prelude.{◌≡◌, ℕ, IfOk};
ghost use Rattle.std.specs.Result.{result_err};
ghost use Rattle.ace_event.specs.declared.event.Event.TheVariants.{Rk, Wk};
ghost use Rattle.ace_model.specs.Accepted.{least_broken};
ghost use Rattle.ace_portck.specs.Stands.{Stands as PortsTell};
ghost use Rattle.ace_portck.specs.Targets.{Recording};
ghost use Rattle.ace_lineck.specs.Stands.{Stands as LinesTell};
ghost use Rattle.ace_sysck.specs.Stands.{Stands as SystemTells};
ghost use Rattle.ace_check.specs.Found.{IsAcknowledge};
ghost use Rattle.ace_check.specs.Heard.{IsHeard};

use crate::heard::{Heard, found_unless};
use crate::read_data::is_failed_store;
use crate::shares::Shares;
use ace_codes::LineState;
use ace_event::{Channel, Event};
use ace_lineck::LineCheck;
use ace_model::kinds::{read_kind, write_kind};
use ace_portck::{PortCheck, Progress, line_of_read, line_of_write};
use ace_sysck::SysCheck;

/// The read that an RK belongs to, its line, if it has one, and the place of that; or else the
/// least rule that the RK breaks: K1, K22 or K23.
#[inline(always)]
pub(crate) fn judged_rk<'a>(
    ports: &'a PortCheck,
    lines: &LineCheck,
    system: &SysCheck,
    port: u8,
    st: LineState,
) -> Result<(&'a Progress, Option<u32>, Option<usize>), u8>
    ensures least { (r : Recording) → PortsTell ports.now r → LinesTell lines.now r
        → SystemTells system.now r → result_err result ≡ least_broken r.header r.past (Rk port st) }
    ensures found { (r : Recording) → PortsTell ports.now r
        → IfOk result (λ x. IsAcknowledge lines.now r (Rk port st) x.0.now x.1 x.2) }
{
    let Some(x) = ports.acknowledged(port, Channel::Read) else {
        return Err(ports.rule_of_rk(port).unwrap_or(22));
    };
    let Some(kind) = read_kind(&x.transaction) else {
        return Err(23);
    };
    let line = line_of_read(x, kind);
    let place = lines.place(line);
    let failed = is_failed_store(system, &x.transaction);
    let rule = lines.rule_of_rk(x, kind, failed, place, port, st);
    found_unless((x, line, place), rule)
}

/// The same of the write that a WK belongs to, or else K1, K27 or K28.
#[inline(always)]
pub(crate) fn judged_wk<'a>(
    ports: &'a PortCheck,
    lines: &LineCheck,
    port: u8,
    st: LineState,
) -> Result<(&'a Progress, Option<u32>, Option<usize>), u8>
    ensures least { (r : Recording) → PortsTell ports.now r → LinesTell lines.now r
        → result_err result ≡ least_broken r.header r.past (Wk port st) }
    ensures found { (r : Recording) → PortsTell ports.now r
        → IfOk result (λ x. IsAcknowledge lines.now r (Wk port st) x.0.now x.1 x.2) }
{
    let Some(x) = ports.acknowledged(port, Channel::Write) else {
        return Err(ports.rule_of_wk(port).unwrap_or(27));
    };
    let Some(kind) = write_kind(&x.transaction) else {
        return Err(28);
    };
    let line = line_of_write(x, kind);
    let place = lines.place(line);
    found_unless((x, line, place), lines.rule_of_wk(kind, place, port, st))
}

impl Shares {
    /// Hears an RK.
    #[inline(never)]
    pub(crate) fn hear_rk(&mut self, port: u8, st: LineState) -> Heard
        ensures { IsHeard self.old (Rk port st) self.new result }
    {
        let (x, line, place) = match judged_rk(&self.ports, &self.lines, &self.system, port, st) {
            Ok(found) => found,
            Err(rule) => return Heard::Broken(rule),
        };
        self.lines.hear_acknowledge(x, place, port, st);
        self.system.acknowledge(port, line, st);
        self.ports.hear(&Event::Rk { port, st });
        Heard::Fine
    }

    /// Hears a WK.
    #[inline(never)]
    pub(crate) fn hear_wk(&mut self, port: u8, st: LineState) -> Heard
        ensures { IsHeard self.old (Wk port st) self.new result }
    {
        let (x, line, place) = match judged_wk(&self.ports, &self.lines, port, st) {
            Ok(found) => found,
            Err(rule) => return Heard::Broken(rule),
        };
        self.lines.hear_acknowledge(x, place, port, st);
        self.system.acknowledge(port, line, st);
        self.ports.hear(&Event::Wk { port, st });
        Heard::Fine
    }
}
