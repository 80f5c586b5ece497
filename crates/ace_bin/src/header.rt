// The ten bytes of a header.
ghost use Rattle.std.specs.Prelude.{◌≡◌, ◌<◌, ◌≤◌, ◌^◌, ◌↔◌, ◌⊎◌, ◌==◌, length, take, IfSome, IfNone, MatchOption, IsTrue};
ghost use Rattle.std.specs.Int.{bit_at};
ghost use Rattle.std.specs.List.{count_by};
ghost use Rattle.ace_event.specs.Ports.{IsHeader, port_letters};
ghost use Rattle.ace_bin.specs.Binary.{header_bytes};
ghost use Rattle.ace_bin.specs.Reading.{IsRightHeader, AreFew, header_at};

use crate::fields::{four_at, one_at};
use ace_event::{Header, PortKind, kind_of};

/// Whether an ACE port has this number.
fn is_ace(header: &Header, port: u8) -> bool
    requires { port < header.now.ports }
    ensures { result ≡ (bit_at header.now.ace port == 1) }
{
    match kind_of(header, port) {
        Some(PortKind::Ace) => true,
        _ => false,
    }
}

/// The number of ACE ports of a header, and that of its ACE-Lite ports.
fn count_ports(header: &Header) -> (u8, u8)
    ensures ace { result.0 ≡ count_by (λ letter. letter == 65) (port_letters header.now) }
    ensures lite { result.1 ≡ count_by (λ letter. letter == 76) (port_letters header.now) }
{
    let mut ace: u8 = 0;
    let mut lite: u8 = 0;
    for port in 0..header.ports {
        if is_ace(header, port) {
            ace += 1;
        } else {
            lite += 1;
        }
    }
    (ace, lite)
}

/// Whether the numbers of ports are within the limits of the version.
fn are_few(header: &Header) -> bool
    ensures { IsTrue result ↔ AreFew header.now }
{
    let (ace, lite) = count_ports(header);
    let most = if header.version == 1 { 8 } else { 16 };
    ace <= most && lite <= most
}

/// Whether no bit at or above the number of ports is 1.
fn has_no_other(ace: u32, ports: u8) -> bool
    requires { ports ≤ 32 }
    ensures { IsTrue result ↔ (ace < 2 ^ ports) }
{
    if ports == 32 {
        return true;
    }
    ace >> ports == 0
}

/// Whether the version is 1 or 2.
fn is_version(version: u8) -> bool
    ensures { IsTrue result ↔ ((version ≡ 1) ⊎ (version ≡ 2)) }
{
    version == 1 || version == 2
}

/// Whether this is a header that a trace may have.
fn is_header(header: &Header) -> bool
    ensures { IsTrue result ↔ IsHeader header.now }
{
    if !is_version(header.version) || header.ports == 0 || header.ports > 32 {
        return false;
    }
    has_no_other(header.ace, header.ports) && are_few(header)
}

/// The header at the front of the bytes, by its numbers. None where it isn't right.
fn right_header(bytes: &[u8]) -> Option<Header>
    requires { 10 ≤ length bytes.now }
    ensures { MatchOption result (¬ IsRightHeader bytes.now)
        (λ header. IsRightHeader bytes.now × (header ≡ header_at bytes.now)) }
{
    if &bytes[..4] != b"ACEB".as_slice() {
        return None;
    }
    let header = Header {
        version: one_at(bytes, 4),
        ports: one_at(bytes, 5),
        ace: four_at(bytes, 6),
    };
    if is_header(&header) {
        Some(header)
    } else {
        None
    }
}

/// The header at the front of the bytes, of which there are enough. None where it isn't right.
pub fn parse_header(bytes: &[u8]) -> Option<Header>
    requires { 10 ≤ length bytes.now }
    ensures none { IfNone result (¬ IsRightHeader bytes.now) }
    ensures some { IfSome result
        (λ header. IsHeader header × (take 10 bytes.now ≡ header_bytes header)) }
{
    match right_header(bytes) {
        Some(header) => Some(header),
        None => None,
    }
}
