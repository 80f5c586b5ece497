// The header of a trace.
ghost use Rattle.std.specs.Prelude.{◌≡◌, ◌==◌};
ghost use Rattle.std.specs.Int.{bit_at};
ghost use Rattle.ace_event.specs.Ports.{port_kind};

/// What stands behind a port (Arm IHI 0022E, C1.4 and C11).
#[derive(Clone, Copy, Debug, PartialEq, Eq)]
pub enum PortKind {
    /// A master with a cache, which is snooped.
    Ace,
    /// An ACE-Lite master, which holds no line and is never snooped.
    Lite,
}

/// The header of a trace: its version, 1 or 2, how many ports it has, and which of them are ACE
/// ports: bit p of `ace` is 1 exactly where port p is one.
#[derive(Clone, Copy, Debug, PartialEq, Eq)]
pub struct Header {
    pub version: u8,
    pub ports: u8,
    pub ace: u32,
}

/// Whether bit n of the number is 1.
#[tactic(auto, using(crate::proofs::Bytes::no_bit))]
fn has_bit(bits: u32, n: u8) -> bool
    ensures { result ≡ (bit_at bits n == 1) }
{
    n < 32 && bits >> n & 1 == 1
}

/// What stands behind the port with this number, from 0. None where the header has no such port.
pub fn kind_of(header: &Header, port: u8) -> Option<PortKind>
    ensures { result ≡ port_kind header.now port }
{
    if port >= header.ports {
        return None;
    }
    Some(if has_bit(header.ace, port) {
        PortKind::Ace
    } else {
        PortKind::Lite
    })
}
