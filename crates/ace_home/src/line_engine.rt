//! The interface of an engine that serves lines, and may leave ports out of its snoops.

ghost use Rattle.std.specs.Prelude.{◌≡◌, ◌<◌, ℕ, true, false, [], IsTrue};
ghost use Rattle.ace_model.specs.Plans.{Plan};
ghost use Rattle.ace_model.specs.Trace.{Trace};
ghost use Rattle.ace_runs.specs.Bursts.{onto};
ghost use Rattle.ace_engine.specs.Engines.{numbers_of};
ghost use Rattle.ace_home.specs.Among.{HasHolders, is_enabled_by_among, is_step_by_among};

use ace_engine::{Burst, Engine};
use ace_model::Among;

/// An engine that serves lines.
pub trait LineEngine: Engine {
    /// Puts a step of the port in `out`, which is empty. For each line it snoops only ports of a
    /// set that has each ACE port whose state of the line isn't I. Where none of its steps is
    /// enabled for the port, its snoops read over the set, it answers false, and nothing has
    /// changed.
    fn turn_among<F: Among>(&mut self, port: u8, among: &F, out: &mut Burst) -> bool
        requires stands { (plan : Plan) × (past : Trace) × Self.stands self.old plan past
            × (port < plan.header.ports) × HasHolders (F.has among.now) plan.header past }
        requires serves { Self.serves self.old port ≡ true }
        requires out { out.old ≡ [] }
        ensures serves { (p : ℕ) → Self.serves self.new p ≡ Self.serves self.old p }
        ensures step { IsTrue result → (plan : Plan) (past : Trace) → Self.stands self.old plan past
            → is_step_by_among (F.has among.now) (numbers_of Self.kind) plan past port out.new
            ≡ true }
        ensures stands { IsTrue result → (plan : Plan) (past : Trace)
            → Self.stands self.old plan past → Self.stands self.new plan (onto out.new past) }
        ensures none { result ≡ false → (plan : Plan) (past : Trace)
            → Self.stands self.old plan past
            → is_enabled_by_among (F.has among.now) (numbers_of Self.kind) plan past port ≡ false }
        ensures unchanged { result ≡ false → (self.new ≡ self.old) × (out.new ≡ []) };
}
