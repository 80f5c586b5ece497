//! Which ports may be snooped for a line.

ghost use Rattle.std.specs.Prelude.{◌≡◌, ◌<◌, ◌==◌, Bool, ℕ};
ghost use Rattle.std.specs.Int.{bit_at};

/// Tells for each line which ports may be snooped for it.
pub trait Among {
    /// The port may be snooped for the line: first the line's address, then the port.
    ghost has: { Self → ℕ → ℕ → Bool };

    /// The ports that may be snooped for the line: bit p says whether port p may.
    fn may(&self, line: u32) -> u32
        ensures { (p : ℕ) → p < 32 → (bit_at result p == 1) ≡ has self.now line p };
}

/// All ports may be snooped for each line.
#[derive(Clone, Copy, Debug, PartialEq, Eq)]
pub struct AllPorts;

impl Among for AllPorts {
    ghost use Rattle.std.specs.Prelude.{true};

    ghost has = { λ _ _ _. true };

    fn may(&self, _line: u32) -> u32 {
        u32::MAX
    }
}
