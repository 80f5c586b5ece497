//! The least rule of those that look at one port that an S, L or D breaks, and what else such an
//! event asks of its port.

use crate::PortCheck;
use crate::rules::{has_ace_port, is_line_address};
use crate::target::Progress;
use ace_codes::LineState;
use ace_tables::is_invalid;

impl PortCheck {
    ghost use Rattle.std.specs.Prelude.{◌≡◌, ◌&&◌, ℕ, Bool, Some};
    ghost use Rattle.std.specs.Option.{option_copied};
    ghost use Rattle.ace_codes.specs.declared.state.LineState.{LineState};
    ghost use Rattle.ace_event.specs.declared.event.Event.TheVariants.{S as SilentChange, L as Load, D as Store};
    ghost use Rattle.ace_event.specs.declared.line.Line.{Line};
    ghost use Rattle.ace_tables.specs.States.{is_invalid};
    ghost use Rattle.ace_model.specs.Accepted.{least_of};
    ghost use Rattle.ace_model.specs.Progress.{has_update};
    ghost use Rattle.ace_model.specs.Shares.{port_rules};
    ghost use Rattle.ace_portck.specs.Stands.{Stands};
    ghost use Rattle.ace_portck.specs.Targets.{Recording, own_on};

    /// The least of K1 and K3, which are all that is asked of the port of an S, L or D: it is an
    /// ACE port of the header, and the line is at a multiple of 64.
    #[inline(always)]
    fn rule_on_line(&self, port: u8, addr: u32) -> Option<u8>
        ensures change { (r : Recording) (st : LineState) → Stands self.now r
            → result ≡ least_of port_rules r.header r.past (SilentChange port addr st) }
        ensures load { (r : Recording) (w : ℕ) (x : Bool) (word : ℕ) → Stands self.now r
            → result ≡ least_of port_rules r.header r.past (Load port addr w x word) }
        ensures store { (r : Recording) (strobe : ℕ) (x : Bool) (line : Line) → Stands self.now r
            → result ≡ least_of port_rules r.header r.past (Store port addr strobe x line) }
    {
        if !has_ace_port(&self.header, port) {
            return Some(1);
        }
        if is_line_address(addr) { None } else { Some(3) }
    }

    /// The least rule of the share that an S breaks: K1 or K3.
    #[inline(always)]
    pub fn rule_of_s(&self, port: u8, addr: u32) -> Option<u8>
        ensures { (r : Recording) (st : LineState) → Stands self.now r
            → result ≡ least_of port_rules r.header r.past (SilentChange port addr st) }
    {
        self.rule_on_line(port, addr)
    }

    /// The least rule of the share that an L breaks: K1 or K3.
    #[inline(always)]
    pub fn rule_of_l(&self, port: u8, addr: u32) -> Option<u8>
        ensures { (r : Recording) (w : ℕ) (x : Bool) (word : ℕ) → Stands self.now r
            → result ≡ least_of port_rules r.header r.past (Load port addr w x word) }
    {
        self.rule_on_line(port, addr)
    }

    /// The least rule of the share that a D breaks: K1 or K3.
    #[inline(always)]
    pub fn rule_of_d(&self, port: u8, addr: u32) -> Option<u8>
        ensures { (r : Recording) (strobe : ℕ) (x : Bool) (line : Line) → Stands self.now r
            → result ≡ least_of port_rules r.header r.past (Store port addr strobe x line) }
    {
        self.rule_on_line(port, addr)
    }

    /// The port's outstanding transaction on the line, where it stands.
    #[inline(always)]
    pub fn own(&self, port: u8, line: u32) -> Option<&Progress>
        ensures { (r : Recording) → Stands self.now r
            → option_copied result ≡ own_on r.header r.past port (Some line) }
    {
        self.kept(port).transactions.own_on(line)
    }

    /// An S to this state leaves its port without the line, while a memory update of the port on
    /// the line is outstanding.
    #[inline(always)]
    pub fn drops_update(&self, port: u8, addr: u32, st: LineState) -> bool
        ensures { (r : Recording) → Stands self.now r
            → result ≡ (is_invalid st && has_update r.header r.past port addr) }
    {
        is_invalid(st) && self.has_update(port, addr)
    }
}
