ghost use Rattle.std.specs.Prelude.{◌≡◌, ◌<◌, Some, length};
ghost use Rattle.ace_tables.specs.Answers.{snoop_rows};
ghost use Rattle.ace_tables.specs.Picks.{eager_row};
ghost use Rattle.ace_policy.specs.Policies.{eager_rows};
ghost use Rattle.ace_policy.specs.Permitted.{eager_permitted};

use crate::Policy;
use ace_codes::{LineState, SnoopKind};
use ace_tables::{Row, snoop_rows};

/// Gives a line up as soon as it can: the last next state that has a row in the order UD, SD, UC,
/// SC, I, and DataTransfer and WasUnique 1 where they may be.
#[derive(Clone, Copy, Debug)]
pub struct Eager;

impl Policy for Eager {
    ghost rows = { λ _. eager_rows };

    ghost permitted = { λ _. eager_permitted };

    #[tactic(auto, using(crate::specs::Permitted::picked_steps))]
    fn pick(&mut self, snoop: SnoopKind, held: LineState, update: bool) -> Row
        requires { 0 < length (snoop_rows snoop held update) }
        ensures row { eager_row snoop held update ≡ Some result }
    {
        let rows = snoop_rows(snoop, held, update);
        rows.row(rows.count() - 1)
    }
}
