ghost use Rattle.std.specs.Prelude.{◌≡◌, ◌<◌, Some, length};
ghost use Rattle.rand_pcg.specs.Lcg.{started, increment_of};
ghost use Rattle.rand_pcg.specs.Pcg.{pcg32, multiplier_64};
ghost use Rattle.ace_tables.specs.Answers.{snoop_rows};
ghost use Rattle.ace_policy.specs.Policies.{row_at_word};

use crate::Policy;
use ace_codes::{LineState, SnoopKind};
use ace_tables::{Row, snoop_rows};
use rand_core::utils::NextWord;
use rand_pcg::Lcg64Xsh32;
use std::marker::Model;

/// Takes any row, by the words of a PCG generator of 32-bit words: one word a pick, modulo the
/// number of rows.
#[derive(Drop)]
pub struct Mixed {
    words: Lcg64Xsh32,
}

impl Model for Mixed {
    ghost use Rattle.rand_pcg.specs.Lcg.{Lcg};

    ghost Value = { Lcg };

    ghost view = { λ m. m.words };
}

impl Mixed {
    /// The policy by the generator that starts from this state, on stream 1.
    pub fn new(n: u64) -> Mixed
        ensures { result ≡ started 64 multiplier_64 n (increment_of 64 1) }
    {
        Mixed {
            words: Lcg64Xsh32::new(n, 1),
        }
    }
}

impl Policy for Mixed {
    ghost rows = { λ _. snoop_rows };

    ghost permitted = { λ _ _ _ _ _ h. h };

    #[tactic(auto, using(crate::specs::Permitted::picked_steps))]
    fn pick(&mut self, snoop: SnoopKind, held: LineState, update: bool) -> Row
        requires { 0 < length (snoop_rows snoop held update) }
        ensures row { row_at_word snoop held update (pcg32 self.old).0 ≡ Some result }
        ensures next { self.new ≡ (pcg32 self.old).1 }
    {
        let rows = snoop_rows(snoop, held, update);
        let word = self.words.next_word();
        rows.row((word % u32::from(rows.count())) as u8)
    }
}
