//! The monitor of a master, which its exclusive loads set.

ghost use Rattle.std.specs.Prelude.{◌≡◌, ◌∷◌, ℕ, []};
ghost use Rattle.ace_event.specs.declared.header.Header.{Header};
ghost use Rattle.ace_tables.specs.States.{is_invalid};
ghost use Rattle.ace_model.specs.Monitors.{is_monitored};
ghost use Rattle.ace_model.specs.States.{state_of};
ghost use Rattle.ace_model.specs.Trace.{Trace};
ghost use Rattle.ace_master_state.specs.Cached.{CachedStands};
ghost use Rattle.ace_master_state.specs.Monitor.{MonitorStands, kept_line, line_after};

use crate::Cached;
use ace_event::Event;
use ace_tables::is_invalid;

/// The line of the last exclusive load of a port, as long as an exclusive store of it may pass (Arm
/// IHI 0022E, C9).
#[derive(Clone, Copy, Debug, PartialEq, Eq)]
pub struct Monitor {
    port: u8,
    line: Option<u32>,
}

/// The line for which the monitor is set by the event, where it was set for this one, whatever the
/// states of the lines are.
fn line_after(line: Option<u32>, port: u8, event: &Event) -> Option<u32>
    ensures { result ≡ line_after line port event.now }
{
    match *event {
        Event::L {
            port: own,
            addr,
            x,
            ..
        } if own == port && x => Some(addr),
        Event::D { port: own, x, .. } if own == port && x => None,
        _ => line,
    }
}

/// The line, where the port holds it.
fn kept(line: Option<u32>, lines: &Cached) -> Option<u32>
    ensures { (h : Header) (ways : ℕ) (past : Trace) (p : ℕ) → CachedStands h ways past p lines.now
        → result ≡ kept_line line (λ k. is_invalid (state_of h past p k)) }
{
    let Some(own) = line else {
        return None;
    };
    if is_invalid(lines.state(own)) {
        return None;
    }
    line
}

impl Monitor {
    /// The monitor of a port of the empty trace: it is set for no line.
    pub fn new(port: u8) -> Monitor
        ensures { (h : Header) → MonitorStands h [] port result }
    {
        Monitor { port, line: None }
    }

    /// It is set for the line.
    pub fn is_set(&self, line: u32) -> bool
        ensures { (h : Header) (past : Trace) (p : ℕ) → MonitorStands h past p self.now
            → result ≡ is_monitored h past p line }
    {
        self.line.is_some_and(|own| own == line)
    }

    /// Hears the next event of the trace. `lines` is what the port holds after it.
    pub fn hear(&mut self, event: &Event, lines: &Cached)
        ensures { (h : Header) (ways : ℕ) (past : Trace) (p : ℕ)
            → CachedStands h ways (event.now ∷ past) p lines.now → MonitorStands h past p self.old
            → MonitorStands h (event.now ∷ past) p self.new }
    {
        self.line = kept(line_after(self.line, self.port, event), lines);
    }
}
