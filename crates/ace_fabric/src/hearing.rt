//! What engines hear of the steps of others.

ghost use Rattle.std.specs.Prelude.{[], ◌∷◌, length};
ghost use Rattle.ace_fabric.specs.Parts.{HasHeard, HaveHeard};

use ace_engine::{Burst, Engine};
use ace_event::Event;

/// The engine hears the burst.
pub fn hear<E: Engine>(engine: &mut E, burst: &Burst)
    ensures { HasHeard E.Engine burst.now engine.old engine.new }
{
    for i in 0..burst.len() {
        engine.hear(&burst.get(i));
    }
}

/// Each engine but one hears the event.
fn hear_each<E: Engine>(engines: &mut [E], but: usize, event: &Event)
    ensures { HaveHeard E.Engine (event.now ∷ []) but (length engines.old) engines.old engines.new }
{
    for k in 0..engines.len() {
        if k != but {
            engines[k].hear(event);
        }
    }
}

/// Two engines hear the burst, and each of the others but one. Each event is taken out of the burst
/// once for all of them.
pub fn hear_all<A: Engine, B: Engine, E: Engine>(
    one: &mut A,
    other: &mut B,
    engines: &mut [E],
    but: usize,
    burst: &Burst,
)
    ensures one { HasHeard A.Engine burst.now one.old one.new }
    ensures other { HasHeard B.Engine burst.now other.old other.new }
    ensures engines { HaveHeard E.Engine burst.now but
        (length engines.old) engines.old engines.new }
{
    for i in 0..burst.len() {
        let event = burst.get(i);
        one.hear(&event);
        other.hear(&event);
        hear_each(engines, but, &event);
    }
}
