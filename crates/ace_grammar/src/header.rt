// The two lines of a header.
ghost use Rattle.std.specs.Prelude.{◌≡◌, ◌≢◌, ◌↔◌, MatchOption, IsTrue, ◌==◌, ◌<◌, ◌≤◌, ◌^◌, length};
ghost use Rattle.std.specs.List.{count_by};
ghost use Rattle.ace_event.specs.declared.header.Header.{Header};
ghost use Rattle.ace_event.specs.Ports.{port_letters, most_letters};
ghost use Rattle.ace_event.specs.Text.{version_text};
ghost use Rattle.ace_grammar.specs.Reading.{IsReadableHeader, IsVersion, IsVersionLine, ports_text};
ghost use Rattle.ace_grammar.specs.Letters.{ArePortLetters, ace_bits};

use ace_event::Header;

/// The version of which this is the first header line, without its line feed.
pub fn parse_version(line: &[u8]) -> Option<u8>
    ensures { MatchOption result (¬ IsVersionLine line.now)
        (λ version. IsVersion version × (version_text version ≡ line.now)) }
{
    if line == b"ACE 1".as_slice() {
        Some(1)
    } else if line == b"ACE 2".as_slice() {
        Some(2)
    } else {
        None
    }
}

/// How many of the letters are this one.
fn count_of(letters: &[u8], letter: u8) -> usize
    ensures value { result ≡ count_by (λ other. other == letter) letters.now }
    ensures bound { result ≤ length letters.now }
{
    letters.iter().filter(|other| **other == letter).count()
}

/// The most letters of each kind in a trace of a version.
fn most_letters(version: u8) -> usize
    ensures value { result ≡ most_letters version }
    ensures bound { result ≤ 16 }
{
    if version == 1 { 8 } else { 16 }
}

/// Whether these are the letters of ports: one or more, and at most so many of each kind.
fn are_letters(letters: &[u8], most: usize) -> bool
    ensures { IsTrue result ↔ ArePortLetters most letters.now }
{
    let ace = count_of(letters, b'A');
    let lite = count_of(letters, b'L');
    !letters.is_empty() && ace <= most && lite <= most && ace + lite == letters.len()
}

/// The number in which bit p is 1 exactly where letter p is that of an ACE port.
#[tactic(auto, unfolding(crate::specs::Letters::ace_bits))]
fn ace_bits(letters: &[u8]) -> u32
    requires { length letters.now ≤ 32 }
    ensures value { result ≡ ace_bits letters.now }
    ensures below { result < 2 ^ length letters.now }
{
    match letters {
        [] => 0,
        [letter, rest @ ..] => u32::from(*letter == b'A') + 2 * ace_bits(rest),
    }
}

/// The header of the version with these port letters.
fn parse_letters(letters: &[u8], version: u8) -> Option<Header>
    requires { IsVersion version }
    ensures { MatchOption result ((header : Header) → IsReadableHeader header
        → header.version ≡ version → port_letters header ≢ letters.now)
        (λ header. IsReadableHeader header × (header.version ≡ version)
        × (port_letters header ≡ letters.now)) }
{
    if !are_letters(letters, most_letters(version)) {
        return None;
    }
    Some(Header {
        version,
        ports: letters.len() as u8,
        ace: ace_bits(letters),
    })
}

/// The header of the version whose second line this is, without its line feed. None where it is
/// that of no readable header.
pub fn parse_ports(line: &[u8], version: u8) -> Option<Header>
    requires { IsVersion version }
    ensures { MatchOption result ((header : Header) → IsReadableHeader header
        → header.version ≡ version → ports_text header ≢ line.now)
        (λ header. IsReadableHeader header × (header.version ≡ version)
        × (ports_text header ≡ line.now)) }
{
    let letters = line.strip_prefix(b"PORTS ".as_slice())?;
    parse_letters(letters, version)
}
