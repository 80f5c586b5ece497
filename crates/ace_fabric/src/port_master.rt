//! The master of a port, of either kind.

use ace_engine::{Burst, Engine};
use ace_event::Event;
use ace_master::Master;
use ace_model::Op;

/// The master of a port: that of an ACE port, or that of an ACE-Lite port.
#[derive(Drop)]
pub enum PortMaster<A: Engine, L: Engine> {
    Ace(A),
    Lite(L),
}

impl<A: Engine, L: Engine> Engine for PortMaster<A, L> {
    ghost use Rattle.ace_engine.specs.Engines.{Master};
    ghost use Rattle.ace_fabric.specs.PortMaster.{StandsAsMaster, grows, legal, serves};

    ghost kind = { Master };

    ghost serves = { serves A.Engine L.Engine };

    ghost stands = { StandsAsMaster A.Engine L.Engine };

    ghost legal = { legal A.Engine L.Engine };

    ghost grows = { grows A.Engine L.Engine };

    fn turn(&mut self, port: u8, out: &mut Burst) -> bool {
        match self {
            PortMaster::Ace(master) => master.turn(port, out),
            PortMaster::Lite(master) => master.turn(port, out),
        }
    }

    fn hear(&mut self, event: &Event) {
        match self {
            PortMaster::Ace(master) => master.hear(event),
            PortMaster::Lite(master) => master.hear(event),
        }
    }
}

impl<A: Master, L: Master> Master for PortMaster<A, L> {
    fn push(&mut self, op: Op) {
        match self {
            PortMaster::Ace(master) => master.push(op),
            PortMaster::Lite(master) => master.push(op),
        }
    }
}
