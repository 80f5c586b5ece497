//! The monitors of the ports.

ghost use Rattle.std.specs.Prelude.{◌≡◌};
ghost use Rattle.ace_sysck.specs.Monitors.{kept_after};

use crate::entries::{entry_or, set_entry};
use ace_codes::LineState;
use std::alloc::{AllocError, Global};

/// For each port of the header, the line that its monitor is set for: the line of its last
/// exclusive load, where it made no exclusive store since then and never held the line in I (Arm
/// IHI 0022E, C9).
#[derive(Drop)]
pub struct Monitors {
    lines: Vec<Option<u32>>,
}

/// The line that a monitor is set for, once its port is left in a state of a line: in I the monitor
/// is no longer set for it.
#[inline(always)]
fn kept_after(kept: Option<u32>, line: Option<u32>, state: LineState) -> Option<u32>
    ensures { result ≡ kept_after kept line state }
{
    match (kept, line) {
        (Some(own), Some(left)) if state == LineState::I && left == own => None,
        _ => kept,
    }
}

impl Monitors {
    ghost use Rattle.std.specs.Prelude.{◌≡◌, ◌∷◌, ℕ, [], IfOk, None, slice_set, slice_index_or};
    ghost use Rattle.ace_event.specs.declared.event.Event.TheVariants.{L, D};
    ghost use Rattle.ace_event.specs.declared.line.Line.{Line};
    ghost use Rattle.ace_event.specs.declared.header.Header.{Header};
    ghost use Rattle.ace_model.specs.Accepted.{IsAccepted};
    ghost use Rattle.ace_model.specs.Monitors.{is_monitored};
    ghost use Rattle.ace_model.specs.Trace.{implies};
    ghost use Rattle.ace_portck.specs.Targets.{Recording, after};
    ghost use Rattle.ace_sysck.specs.Monitors.{MonitorsStand, kept_after};

    /// The monitors of the empty trace, of so many ports.
    #[tactic(auto, using(crate::proofs::MonitorSteps::monitors_fresh))]
    pub fn new(alloc: Global, ports: u8) -> Result<Monitors, AllocError>
        ensures { IfOk result (λ s. (h : Header) → h.ports ≡ ports
            → MonitorsStand (record { header = h; past = [] }) s) }
    {
        let lines = vec![in alloc; None; usize::from(ports)]?;
        Ok(Monitors { lines })
    }

    #[inline(always)]
    fn set(&mut self, port: u8, line: Option<u32>)
        ensures { self.new.lines.items ≡ slice_set self.old.lines.items port line }
    {
        set_entry(&mut self.lines, port, line);
    }

    /// K33, of a D: with x 1 the monitor of its port is set for the line.
    #[inline(always)]
    pub(crate) fn lets_store(&self, port: u8, addr: u32, x: bool) -> bool
        ensures { (r : Recording) → MonitorsStand r self.now
            → result ≡ implies x (is_monitored r.header r.past port addr) }
    {
        !x || entry_or(&self.lines, port, None) == Some(addr)
    }

    /// The port is left in this state of the line.
    #[inline(always)]
    pub fn leave(&mut self, port: u8, line: Option<u32>, state: LineState)
        ensures { self.new.lines.items
            ≡ slice_set self.old.lines.items port
            (kept_after (slice_index_or self.old.lines.items port None) line state) }
    {
        let kept = kept_after(entry_or(&self.lines, port, None), line, state);
        self.set(port, kept);
    }

    /// The monitors after an L: where it is exclusive, that of its port is set for the line.
    #[inline(always)]
    pub fn load(&mut self, port: u8, addr: u32, x: bool)
        ensures { (r : Recording) (w word : ℕ) → IsAccepted r.header (L port addr w x word ∷ r.past)
            → MonitorsStand r self.old
            → MonitorsStand (after r (L port addr w x word)) self.new }
    {
        if x {
            self.set(port, Some(addr));
        }
    }

    /// The monitors after a D: where it is exclusive, that of its port is no longer set.
    #[inline(always)]
    pub fn store(&mut self, port: u8, x: bool)
        ensures { (r : Recording) (addr strobe : ℕ) (line : Line)
            → IsAccepted r.header (D port addr strobe x line ∷ r.past) → MonitorsStand r self.old
            → MonitorsStand (after r (D port addr strobe x line)) self.new }
    {
        if x {
            self.set(port, None);
        }
    }
}
