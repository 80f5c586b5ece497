//! The least rule of those that look at one port that an OP breaks.

use crate::PortCheck;
use crate::rules::{has_port, unless};

impl PortCheck {
    ghost use Rattle.std.specs.Prelude.{◌≡◌};
    ghost use Rattle.ace_event.specs.declared.event.Outcome.{Outcome};
    ghost use Rattle.ace_event.specs.declared.event.Event.TheVariants.{Op};
    ghost use Rattle.ace_model.specs.Accepted.{least_of};
    ghost use Rattle.ace_model.specs.Shares.{port_rules};
    ghost use Rattle.ace_portck.specs.Stands.{Stands};
    ghost use Rattle.ace_portck.specs.Targets.{Recording};

    /// The least rule of the share that an OP breaks: K1, or K40, that its number is that of the
    /// port's earlier OP events.
    #[inline(always)]
    pub fn rule_of_op(&self, port: u8, k: u16) -> Option<u8>
        ensures { (r : Recording) (res : Outcome) → Stands self.now r
            → result ≡ least_of port_rules r.header r.past (Op port k res) }
    {
        if !has_port(&self.header, port) {
            return Some(1);
        }
        let kept = self.kept(port);
        unless(u32::from(k) == kept.retired.next(), Some(40))
    }
}
