//! What the R or B of half of a barrier asks of its port: which of the transactions before it have
//! come how far (Arm IHI 0022E, C8).

use crate::PortCheck;

impl PortCheck {
    ghost use Rattle.std.specs.Prelude.{◌≡◌};
    ghost use Rattle.ace_portck.specs.Stands.{Stands};
    ghost use Rattle.ace_portck.specs.Targets.{Recording, first_unordered, first_incomplete};

    /// The place of the port's oldest line transaction with bar 0 without its order point.
    pub fn first_unordered(&self, port: u8) -> Option<usize>
        ensures { (r : Recording) → Stands self.now r → result ≡ first_unordered r.past port }
    {
        self.kept(port).transactions.first_unordered()
    }

    /// The place of the port's oldest line transaction with bar 0 that isn't complete.
    pub fn first_incomplete(&self, port: u8) -> Option<usize>
        ensures { (r : Recording) → Stands self.now r → result ≡ first_incomplete r.past port }
    {
        self.kept(port).transactions.first_incomplete()
    }
}
