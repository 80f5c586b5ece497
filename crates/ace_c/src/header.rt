// The header that C gives as numbers.
ghost use Rattle.std.specs.Prelude.{◌≡◌, ◌≤◌, ◌<◌, ◌+◌};
ghost use Rattle.std.specs.Option.{MatchOption};
ghost use Rattle.ace_event.specs.Ports.{IsHeader, port_letter, most_letters};
ghost use Rattle.ace_c.specs.Headers.{given, letters_from};

use ace_event::Header;

/// The letter of a port, as a trace has it.
fn letter_of(ace: u32, port: u8) -> u8
    requires { port < 32 }
    ensures { result ≡ port_letter ace port }
{
    if ace >> port & 1 == 1 { b'A' } else { b'L' }
}

/// How many of so many ports, from this one on, have the letter.
#[tactic(auto, using(crate::proofs::Headers::letters_more))]
fn count(ace: u32, letter: u8, from: u8, ports: u8) -> u8
    requires { from + ports ≤ 32 }
    ensures value { result ≡ letters_from ace letter from ports }
    ensures bound { result ≤ ports }
{
    if ports == 0 {
        return 0;
    }
    let rest = count(ace, letter, from + 1, ports - 1);
    if letter_of(ace, from) == letter {
        rest + 1
    } else {
        rest
    }
}

/// The most letters of each kind in a trace of the version.
fn most_letters(version: u8) -> u8
    ensures { result ≡ most_letters version }
{
    if version == 1 { 8 } else { 16 }
}

/// The header with these numbers, where it is one of a trace.
pub(crate) fn header_of(version: u8, ports: u8, ace: u32) -> Option<Header>
    ensures { MatchOption result (¬ IsHeader (given version ports ace))
        (λ header. (header ≡ given version ports ace) × IsHeader header) }
{
    if version != 1 && version != 2 || ports == 0 || ports > 32 {
        return None;
    }
    if u64::from(ace) >= 1u64 << ports {
        return None;
    }
    if count(ace, b'A', 0, ports) > most_letters(version)
        || count(ace, b'L', 0, ports) > most_letters(version)
    {
        return None;
    }
    Some(Header {
        version,
        ports,
        ace,
    })
}
