//! Sets of ports.

ghost use Rattle.std.specs.Prelude.{◌≡◌, ◌<◌, ◌&&◌, ◌||◌, ◌==◌, ℕ, not, true, false};
ghost use Rattle.std.specs.Int.{bit_at};
ghost use Rattle.ace_home.specs.Resting.{has_port};

use ace_event::Header;

/// Ports below 32, of which bit p says whether port p is one.
#[derive(Clone, Copy)]
pub struct PortSet {
    bits: u32,
}

/// The bits with that of the port set.
#[tactic(auto, using(crate::proofs::PortBits::bit_set))]
fn with_bit(bits: u32, port: u8) -> u32
    ensures { port < 32 → (p : ℕ) → (bit_at result p == 1) ≡ ((port == p) || (bit_at bits p == 1)) }
{
    if port < 32 { bits | 1 << port } else { bits }
}

/// The bits with that of the port cleared.
#[tactic(auto, using(crate::proofs::PortBits::bit_cleared))]
fn without_bit(bits: u32, port: u8) -> u32
    ensures { port < 32
        → (p : ℕ) → (bit_at result p == 1) ≡ (not (port == p) && (bit_at bits p == 1)) }
{
    if port < 32 { bits & !(1 << port) } else { bits }
}

impl PortSet {
    /// No port.
    pub fn none() -> PortSet
        ensures { (p : ℕ) → has_port result p ≡ false }
    {
        PortSet { bits: 0 }
    }

    /// Each port that a header may have.
    pub fn all() -> PortSet {
        PortSet { bits: 0xffff }
    }

    /// The ACE ports of the header.
    #[inline(always)]
    pub fn ace(header: &Header) -> PortSet {
        PortSet { bits: header.ace }
    }

    /// The port is one of them.
    #[inline(always)]
    pub fn has(self, port: u8) -> bool
        ensures { result ≡ has_port self port }
    {
        port < 32 && self.bits >> port & 1 == 1
    }

    /// There is none.
    #[inline(always)]
    pub fn is_empty(self) -> bool {
        self.bits == 0
    }

    /// The port is one more of them.
    #[inline(always)]
    pub fn add(&mut self, port: u8)
        ensures more { (p : ℕ) → has_port self.old p ≡ true → has_port self.new p ≡ true }
        ensures own { port < 32 → has_port self.new port ≡ true }
        ensures less { (p : ℕ) → has_port self.new p ≡ true → (port == p) ≡ false
            → has_port self.old p ≡ true }
    {
        if port < 32 {
            self.bits = with_bit(self.bits, port);
        }
    }

    /// The port is none of them from now on.
    #[inline(always)]
    pub fn remove(&mut self, port: u8)
        ensures less { (p : ℕ) → has_port self.new p ≡ true
            → (has_port self.old p ≡ true) × ((port == p) ≡ false) }
        ensures others { (p : ℕ) → has_port self.old p ≡ true → (port == p) ≡ false
            → has_port self.new p ≡ true }
    {
        if port < 32 {
            self.bits = without_bit(self.bits, port);
        }
    }

    /// Those of them that aren't in the other set.
    #[inline(always)]
    #[tactic(auto, using(crate::proofs::PortBits::port_apart))]
    pub fn apart(self, other: PortSet) -> PortSet
        ensures { (p : ℕ) → has_port result p ≡ (has_port self p && not (has_port other p)) }
    {
        PortSet {
            bits: self.bits & !other.bits,
        }
    }
}
