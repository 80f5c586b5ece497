ghost use Rattle.std.specs.Prelude.{◌≡◌, ◌≢◌, ◌<◌, ◌+◌, ◌%◌, [], Some, IfOk, length, slice_index};
ghost use Rattle.ace_tables.specs.Answers.{snoop_rows};
ghost use Rattle.ace_policy.specs.Policies.{row_at_word};

use crate::Policy;
use ace_codes::{LineState, SnoopKind};
use ace_io::NoMemory;
use ace_tables::{Row, snoop_rows};
use std::alloc::Global;
use std::marker::Model;

/// Takes any row, by a list of numbers: one a pick, modulo the number of rows, and after the last
/// from the first again.
#[derive(Drop)]
pub struct Listed {
    picks: Vec<u8>,
    next: usize,
}

impl Model for Listed {
    ghost use Rattle.std.specs.Prelude.{◌<◌, length};
    ghost use Rattle.ace_policy.specs.Policies.{Picks};

    ghost Value = { Picks };

    ghost view = { λ s. record { picks = s.picks.items; next = s.next } };

    ghost invariant = { λ s. s.next < length s.picks.items };
}

impl Listed {
    /// The policy by these numbers, of which the first is next. There has to be one.
    ///
    /// # Errors
    ///
    /// `NoMemory` where there is none to keep them.
    pub fn new(alloc: Global, picks: &[u8]) -> Result<Listed, NoMemory>
        requires { picks.now ≢ [] }
        ensures { IfOk result (λ s. s ≡ record { picks = picks.now; next = 0 }) }
    {
        let mut kept = Vec::new(alloc);
        match kept.extend_from_slice(picks) {
            Ok(()) => Ok(Listed {
                picks: kept,
                next: 0,
            }),
            Err(_) => Err(NoMemory),
        }
    }
}

impl Policy for Listed {
    ghost rows = { λ _. snoop_rows };

    ghost permitted = { λ _ _ _ _ _ h. h };

    #[tactic(auto, using(crate::specs::Permitted::picked_steps))]
    fn pick(&mut self, snoop: SnoopKind, held: LineState, update: bool) -> Row
        requires { 0 < length (snoop_rows snoop held update) }
        ensures row { row_at_word snoop held update (slice_index self.old.picks self.old.next)
            ≡ Some result }
        ensures next { self.new ≡ record self.old {
          next = (self.old.next + 1) % length self.old.picks;
        } }
    {
        let rows = snoop_rows(snoop, held, update);
        let row = rows.row(self.picks[self.next] % rows.count());
        self.next = (self.next + 1) % self.picks.len();
        row
    }
}
