// What an operation may name.
ghost use Rattle.std.specs.Prelude.{◌≡◌, ◌≤◌};
ghost use Rattle.ace_cover_script.specs.Covering.{places_of};
ghost use Rattle.ace_cover_script.specs.Shapes.{IsShape};

use crate::shape::Shape;

/// A line that is snooped, one that isn't, and the number of a word.
#[derive(Clone, Copy)]
pub struct Places {
    pub(crate) snooped: u32,
    pub(crate) unsnooped: u32,
    pub(crate) word: u8,
}

/// The places that this word of the generator gives.
pub(crate) fn places_of(shape: Shape, x: u32) -> Places
    requires { IsShape shape }
    ensures value { result ≡ places_of shape x }
    ensures word { result.word ≤ 3 }
{
    let line = 64 * (x / 256 % shape.lines);
    Places {
        snooped: 0x1000 + line,
        unsnooped: 0x8000 + line,
        word: (x / 4096 % 4) as u8,
    }
}
