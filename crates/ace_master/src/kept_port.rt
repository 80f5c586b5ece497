//! What the master of an ACE-Lite port keeps of it, and the events that it puts.

ghost use Rattle.std.specs.Prelude.{◌≡◌, ◌≤◌, ◌+◌, ◌++◌, ◌∷◌, [], false, length};
ghost use Rattle.ace_model.specs.Plans.{Plan};
ghost use Rattle.ace_model.specs.Trace.{Trace};
ghost use Rattle.ace_model.specs.Transactions.{is_ace};
ghost use Rattle.ace_event.specs.declared.event.Outcome.TheVariants.{Ok};
ghost use Rattle.ace_runs.specs.Bursts.{onto};
ghost use Rattle.ace_runs.specs.Closing.{retirement};
ghost use Rattle.ace_runs.specs.Steps.{most_events};
ghost use Rattle.ace_engine.specs.Engines.{IsLegal};
ghost use Rattle.ace_master.specs.KeptPort.{KeepsPort};
ghost use Rattle.ace_portck.specs.OnePort.{port_of};
ghost use Rattle.ace_master_state.specs.Identifiers.{IdentifiersStand};

use ace_engine::Burst;
use ace_event::{Event, Outcome};
use ace_master_state::Identifiers;
use ace_portck::{OnePort, is_at};

/// Hears the next event of the trace.
pub fn note(port: &mut OnePort, identifiers: &mut Identifiers, event: &Event)
    ensures kept { (plan : Plan) (past : Trace) → KeepsPort port.old plan past
        → IsLegal plan (event.now ∷ past) → KeepsPort port.new plan (event.now ∷ past) }
    ensures identifiers { (plan : Plan) (past : Trace) → IsLegal plan (event.now ∷ past)
        → is_ace plan.header (port_of port.old) ≡ false
        → IdentifiersStand plan.header past (port_of port.old) identifiers.old
        → IdentifiersStand plan.header (event.now ∷ past) (port_of port.old) identifiers.new }
    ensures port { port_of port.new ≡ port_of port.old }
{
    if is_at(event, port.port()) {
        identifiers.hear_lite(event);
    }
    port.hear(event);
}

/// Hears the events, and puts them in the burst.
pub fn put(port: &mut OnePort, identifiers: &mut Identifiers, events: &[Event], out: &mut Burst)
    requires { length out.old + length events.now ≤ most_events }
    ensures kept { (plan : Plan) (past : Trace) → KeepsPort port.old plan past
        → IsLegal plan (onto events.now past) → KeepsPort port.new plan (onto events.now past) }
    ensures identifiers { (plan : Plan) (past : Trace) → IsLegal plan (onto events.now past)
        → is_ace plan.header (port_of port.old) ≡ false
        → IdentifiersStand plan.header past (port_of port.old) identifiers.old
        → IdentifiersStand plan.header (onto events.now past) (port_of port.old) identifiers.new }
    ensures port { port_of port.new ≡ port_of port.old }
    ensures burst { out.new ≡ out.old ++ events.now }
{
    for event in events {
        note(port, identifiers, event);
        out.push(*event);
    }
}

/// The OP of the port's next operation.
pub fn retirement(port: &OnePort) -> Event
    ensures { (plan : Plan) (past : Trace) → KeepsPort port.now plan past
        → retirement past (port_of port.now) Ok ≡ result ∷ [] }
{
    Event::Op {
        port: port.port(),
        k: port.retired().min(0xffff) as u16,
        res: Outcome::Ok,
    }
}
