//! The least rule of those that look at one port that a W breaks, and the write that it belongs to.

use crate::PortCheck;
use crate::rules::{has_port, unless};
use ace_model::Transaction;

impl PortCheck {
    ghost use Rattle.std.specs.Prelude.{◌≡◌, ℕ};
    ghost use Rattle.ace_event.specs.declared.event.Event.TheVariants.{W};
    ghost use Rattle.ace_model.specs.Accepted.{least_of};
    ghost use Rattle.ace_model.specs.Shares.{port_rules};
    ghost use Rattle.ace_model.specs.Writes.{next_write, next_write_beat};
    ghost use Rattle.ace_portck.specs.Stands.{Stands};
    ghost use Rattle.ace_portck.specs.Targets.{Recording};

    /// The least rule of the share that a W breaks: K1 or, of K11, all but the data of a memory
    /// update (Arm IHI 0022E, C3.4).
    #[inline(always)]
    pub fn rule_of_w(&self, port: u8, strb: u16, last: bool) -> Option<u8>
        ensures { (r : Recording) (word : ℕ) → Stands self.now r
            → result ≡ least_of port_rules r.header r.past (W port strb last word) }
    {
        if !has_port(&self.header, port) {
            return Some(1);
        }
        let kept = self.kept(port);
        unless(kept.bursts.may_have_beat(strb, last), Some(11))
    }

    /// The write that the port's next W belongs to.
    #[inline(always)]
    pub fn next_write(&self, port: u8) -> Option<Transaction>
        ensures { (r : Recording) → Stands self.now r → result ≡ next_write r.past port }
    {
        self.kept(port).bursts.next_write()
    }

    /// Which beat of its burst the port's next W is, from 0.
    #[inline(always)]
    pub fn next_write_beat(&self, port: u8) -> u8
        ensures { (r : Recording) → Stands self.now r → result ≡ next_write_beat r.past port }
    {
        self.kept(port).bursts.beat()
    }
}
