//! Ms: an M moves what is kept of its port and of its line.

ghost use Rattle.std.specs.Prelude.{◌≡◌, IfOk};
ghost use Rattle.std.specs.Result.{result_err};
ghost use Rattle.ace_event.specs.declared.event.Event.TheVariants.{M};
ghost use Rattle.ace_model.specs.Accepted.{least_broken};
ghost use Rattle.ace_portck.specs.Stands.{Stands as PortsTell};
ghost use Rattle.ace_portck.specs.Targets.{Recording};
ghost use Rattle.ace_lineck.specs.Stands.{Stands as LinesTell};
ghost use Rattle.ace_check.specs.Found.{IsServed};
ghost use Rattle.ace_check.specs.Heard.{IsHeard};

use crate::heard::{Heard, found_unless};
use crate::shares::Shares;
use ace_event::{Channel, Event, Line};
use ace_lineck::LineCheck;
use ace_portck::{PortCheck, Progress};

/// The outstanding transaction of an M and the place of its line, or else the least rule that the
/// M breaks: K1 of its port, K24 or K25 of its line.
#[inline(always)]
pub(crate) fn judged_m<'a>(
    ports: &'a PortCheck,
    lines: &LineCheck,
    port: u8,
    chan: Channel,
    id: u8,
    line: &Line,
) -> Result<(&'a Progress, Option<usize>), u8>
    ensures least { (r : Recording) → PortsTell ports.now r → LinesTell lines.now r
        → result_err result ≡ least_broken r.header r.past (M port chan id line.now) }
    ensures found { (r : Recording) → PortsTell ports.now r
        → IfOk result (λ x. IsServed lines.now r port chan id x.0.now x.1) }
{
    let Some(x) = ports.outstanding(port, chan, id) else {
        let absent = lines.rule_of_no_m();
        return Err(ports.rule_of_m(port).unwrap_or(absent));
    };
    let place = lines.place(Some(x.transaction.addr));
    let burst = ports.burst(port, chan, id);
    found_unless((x, place), lines.rule_of_m(x, burst, place, line))
}

impl Shares {
    /// Hears an M.
    #[inline(never)]
    pub(crate) fn hear_m(&mut self, port: u8, chan: Channel, id: u8, line: &Line) -> Heard
        ensures { IsHeard self.old (M port chan id line.now) self.new result }
    {
        let (x, place) = match judged_m(&self.ports, &self.lines, port, chan, id, line) {
            Ok(found) => found,
            Err(rule) => return Heard::Broken(rule),
        };
        self.lines.hear_memory_write(x, place, line);
        self.ports.hear(&Event::M {
            port,
            chan,
            id,
            line: *line,
        });
        Heard::Fine
    }
}
