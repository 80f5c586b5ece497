//! Which ports may have an outstanding transaction of a line.

ghost use Rattle.std.specs.Prelude.{◌≡◌, ◌<◌, ◌==◌, ℕ, false, true};
ghost use Rattle.ace_home.specs.Resting.{has_port, may_name, set_of};

use crate::port_set::PortSet;

/// How many sets of ports are kept.
const SETS: usize = 1024;

/// Beside each line a set of ports, which has each port with an outstanding transaction of the
/// line. Lines of one number share a set.
#[derive(Drop)]
pub struct LineUsers {
    sets: [PortSet; SETS],
}

/// Which of the sets is that beside the line.
#[inline(always)]
fn set_of(line: u32) -> usize
    ensures { result ≡ set_of line }
{
    (line as usize / 64) % SETS
}

impl LineUsers {
    /// No port beside any line.
    pub fn none() -> LineUsers {
        LineUsers {
            sets: [PortSet::none(); SETS],
        }
    }

    /// The ports beside the line.
    #[inline(always)]
    pub fn of(&self, line: u32) -> PortSet
        ensures { (p : ℕ) → has_port result p ≡ may_name self.now line p }
    {
        self.sets[set_of(line)]
    }

    /// The port is beside the line.
    #[inline(always)]
    pub fn add(&mut self, port: u8, line: u32)
        ensures more { (l p : ℕ) → may_name self.old l p ≡ true → may_name self.new l p ≡ true }
        ensures own { port < 32 → may_name self.new line port ≡ true }
    {
        self.sets[set_of(line)].add(port);
    }

    /// The port isn't beside the line any more. The others stay.
    #[inline(always)]
    pub fn remove(&mut self, port: u8, line: u32)
        ensures { (l p : ℕ) → (port == p) ≡ false → may_name self.old l p ≡ true
            → may_name self.new l p ≡ true }
    {
        self.sets[set_of(line)].remove(port);
    }
}
