// How large the run of a script is.
ghost use Rattle.std.specs.Prelude.{◌≡◌, ◌≤◌, ◌+◌, ◌-◌, ◌/◌, ◌%◌, ◌^◌};
ghost use Rattle.ace_event.specs.Ports.{IsHeader};
ghost use Rattle.ace_cover_script.specs.Shapes.{IsShape, header_of, policy_of, shape_of};

use ace_event::Header;
use ace_model::PolicyWord;

/// How many ports of each kind there are, how many lines of each class are named, and how many
/// lines a cache holds.
#[derive(Clone, Copy)]
pub struct Shape {
    pub(crate) aces: u8,
    pub(crate) lites: u8,
    pub(crate) lines: u32,
    pub(crate) ways: u8,
}

/// A power of two, at most 32.
#[tactic(auto, using(crate::proofs::Headers::shapes))]
fn power_of_two(exponent: u32) -> u32
    requires { exponent ≤ 5 }
    ensures value { result ≡ 2 ^ exponent }
    ensures some { 1 ≤ result }
    ensures most { result ≤ 32 }
{
    1 << exponent
}

/// A number of lines: 1, 2, 4 or 8.
#[tactic(auto, using(crate::proofs::Headers::shapes))]
fn line_count(x: u32) -> u32
    ensures value { result ≡ 2 ^ (x / 64 % 4) }
    ensures some { 1 ≤ result }
    ensures most { result ≤ 8 }
{
    power_of_two(x / 64 % 4)
}

/// A number of ways.
fn way_count(x: u32, y: u32) -> u8
    ensures value { result ≡ 1 + x / 256 % 2 ^ (y % 6) }
    ensures some { 1 ≤ result }
    ensures most { result ≤ 32 }
{
    (1 + x / 256 % power_of_two(y % 6)) as u8
}

/// The shape of these two words.
pub(crate) fn shape_of(x: u32, y: u32) -> Shape
    ensures value { result ≡ shape_of x y }
    ensures bounds { IsShape result }
{
    Shape {
        aces: (1 + x % 8) as u8,
        lites: (1 + x / 8 % 8) as u8,
        lines: line_count(x),
        ways: way_count(x, y),
    }
}

/// The bits of so many ports.
#[tactic(auto, using(crate::proofs::Headers::shapes))]
fn bits_of(ports: u8) -> u32
    requires { ports ≤ 8 }
    ensures { result ≡ 2 ^ ports - 1 }
{
    (1 << ports) - 1
}

/// The ACE ports, and behind them the ACE-Lite ports.
pub(crate) fn header_of(shape: Shape) -> Header
    requires { IsShape shape }
    ensures value { result ≡ header_of shape }
    ensures right { IsHeader result }
{
    Header {
        version: 1,
        ports: shape.aces + shape.lites,
        ace: bits_of(shape.aces),
    }
}

/// How snoops are answered in a run of the script that is made from n.
pub(crate) fn policy_of(n: u64) -> PolicyWord
    ensures { result ≡ policy_of n }
{
    match n % 8 {
        0 => PolicyWord::Keep,
        1 => PolicyWord::Eager,
        _ => PolicyWord::Mixed(n),
    }
}
