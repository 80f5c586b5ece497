//! The least rule of those that look at one port that a G, M or MEM breaks, and the burst that an M
//! writes.

use crate::PortCheck;
use crate::rules::{has_port, is_line_address, unless};
use crate::target::WriteData;
use ace_event::Channel;

impl PortCheck {
    ghost use Rattle.std.specs.Prelude.{◌≡◌, ℕ};
    ghost use Rattle.std.specs.Option.{option_copied};
    ghost use Rattle.ace_event.specs.declared.event.Channel.{Channel};
    ghost use Rattle.ace_event.specs.declared.event.Event.TheVariants.{G, M, Mem};
    ghost use Rattle.ace_event.specs.declared.line.Line.{Line};
    ghost use Rattle.ace_model.specs.Accepted.{least_of};
    ghost use Rattle.ace_model.specs.Shares.{port_rules};
    ghost use Rattle.ace_portck.specs.Stands.{Stands};
    ghost use Rattle.ace_portck.specs.Targets.{Recording, data_in};

    /// The least rule of the share that a G breaks: K1 is all that is asked of its port.
    #[inline(always)]
    pub fn rule_of_g(&self, port: u8) -> Option<u8>
        ensures { (r : Recording) (chan : Channel) (id : ℕ) → Stands self.now r
            → result ≡ least_of port_rules r.header r.past (G port chan id) }
    {
        unless(has_port(&self.header, port), Some(1))
    }

    /// The least rule of the share that an M breaks: K1 is all that is asked of its port.
    #[inline(always)]
    pub fn rule_of_m(&self, port: u8) -> Option<u8>
        ensures { (r : Recording) (chan : Channel) (id : ℕ) (line : Line) → Stands self.now r
            → result ≡ least_of port_rules r.header r.past (M port chan id line) }
    {
        unless(has_port(&self.header, port), Some(1))
    }

    /// The least rule of the share that a MEM breaks: K3. It names no port.
    pub fn rule_of_mem(&self, addr: u32) -> Option<u8>
        ensures { (r : Recording) (line : Line) → Stands self.now r
            → result ≡ least_of port_rules r.header r.past (Mem addr line) }
    {
        if is_line_address(addr) && self.opening.may_open_at(&self.header, addr, self.count) {
            None
        } else {
            Some(3)
        }
    }

    /// Of an M of the port's transaction under the identifier: the burst of a write with data,
    /// where it is whole and the write has had no M.
    #[inline(always)]
    pub fn burst(&self, port: u8, chan: Channel, id: u8) -> Option<&WriteData>
        ensures { (r : Recording) (line : Line) → Stands self.now r
            → option_copied result ≡ data_in r.header r.past (M port chan id line) }
    {
        self.kept(port).bursts.burst(chan, id)
    }
}
