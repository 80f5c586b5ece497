//! The interface of the masters of ports.

ghost use Rattle.std.specs.Prelude.{◌≡◌, ℕ, true};
ghost use Rattle.ace_model.specs.Plans.{IsRight, Plan, longer};
ghost use Rattle.ace_model.specs.Trace.{Trace};

use ace_engine::Engine;
use ace_model::Op;

/// An engine that does the operations of a port, which can be given another.
pub trait Master: Engine {
    /// Puts the operation at the end of those of the port that it serves: it stands for the longer
    /// plan and the same trace. It takes no memory.
    fn push(&mut self, op: Op)
        requires { (plan : Plan) × (past : Trace) × (port : ℕ) × Self.stands self.old plan past
            × (Self.serves self.old port ≡ true)
            × IsRight (longer plan (record { port = port; op = op })) }
        ensures serves { (p : ℕ) → Self.serves self.new p ≡ Self.serves self.old p }
        ensures stands { (plan : Plan) (past : Trace) (port : ℕ) → Self.stands self.old plan past
            → Self.serves self.old port ≡ true
            → IsRight (longer plan (record { port = port; op = op }))
            → Self.stands self.new (longer plan (record { port = port; op = op })) past };
}
