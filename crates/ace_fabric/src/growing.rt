//! What the masters do where the plan of their run grows.

ghost use Rattle.std.specs.Prelude.{◌<◌};
ghost use Rattle.ace_model.specs.Plans.{IsRight, Plan, longer};
ghost use Rattle.ace_model.specs.Trace.{Trace};
ghost use Rattle.ace_fabric.specs.Parts.{AreMasters};

use ace_master::Master;
use ace_model::Op;

/// Gives the operation, which is the last of the longer plan, to the master of its port.
pub fn give<M: Master>(masters: &mut [M], port: u8, op: Op)
    requires { (plan : Plan) × (past : Trace) × AreMasters M.Engine plan past masters.old
        × (port < plan.header.ports) × IsRight (longer plan (record { port = port; op = op })) }
    ensures { (plan : Plan) (past : Trace) → AreMasters M.Engine plan past masters.old
        → IsRight (longer plan (record { port = port; op = op }))
        → AreMasters M.Engine (longer plan (record { port = port; op = op })) past masters.new }
{
    let own = usize::from(port);
    masters[own].push(op);
}
