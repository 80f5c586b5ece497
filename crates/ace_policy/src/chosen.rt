ghost use Rattle.ace_policy.specs.Chosen.{chosen_rows, chosen_permitted};

use crate::{Eager, Keep, Listed, Mixed, Policy};
use ace_codes::{LineState, SnoopKind};
use ace_tables::Row;

/// The policy that a script names, or one that a caller lists.
#[derive(Drop)]
pub enum Chosen {
    Keep,
    Eager,
    Mixed(Mixed),
    Listed(Listed),
}

impl Policy for Chosen {
    ghost rows = { chosen_rows };

    ghost permitted = { chosen_permitted };

    fn pick(&mut self, snoop: SnoopKind, held: LineState, update: bool) -> Row {
        match self {
            Chosen::Keep => Keep.pick(snoop, held, update),
            Chosen::Eager => Eager.pick(snoop, held, update),
            Chosen::Mixed(mixed) => mixed.pick(snoop, held, update),
            Chosen::Listed(listed) => listed.pick(snoop, held, update),
        }
    }
}
