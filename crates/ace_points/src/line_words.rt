// The words of lines.
ghost use Rattle.std.specs.Prelude.{◌≡◌};
ghost use Rattle.ace_model.specs.Copies.{same_line, zero_line};
ghost use Rattle.ace_model.specs.Copies.{word_of};
ghost use Rattle.ace_points.specs.Asked.{has_word};

use ace_event::Line;

/// Word k of the line, from 0; 0 where k is above 3.
fn word_of(line: &Line, k: u8) -> u128
    ensures { result ≡ word_of line.now k }
{
    match line.words.get(usize::from(k)) {
        None => 0,
        Some(word) => *word,
    }
}

/// Word k of the line isn't 0.
pub(crate) fn has_word(line: &Line, k: u8) -> bool
    ensures { result ≡ has_word line.now k }
{
    word_of(line, k) != 0
}

/// The line is all zeros.
pub(crate) fn is_zero(line: &Line) -> bool
    ensures { result ≡ same_line line.now zero_line }
{
    line.words[0] == 0 && line.words[1] == 0 && line.words[2] == 0 && line.words[3] == 0
}
