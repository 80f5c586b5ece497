// Texts in columns.
ghost use Rattle.std.specs.Prelude.{◌≡◌, ◌++◌, decimal, replicate, OnOk};
ghost use Rattle.ace_cover.specs.Tables.{bar_text, left_of, right_of};

use crate::push::push;
use ace_io::NoMemory;
use itoa::Buffer;

/// Adds the byte so many times.
#[tactic(auto, using(crate::proofs::Repeating::repeats))]
fn push_times(text: &mut Vec<u8>, count: usize, byte: u8) -> Result<(), NoMemory>
    ensures { OnOk result (text.new.items ≡ text.old.items ++ replicate count byte) }
{
    for done in 0..count {
        push(text, &[byte])?;
    }
    Ok(())
}

/// Adds the bytes, and spaces behind them up to so many columns.
#[tactic(auto, unfolding(crate::specs::Tables::left_of))]
pub(crate) fn push_left(text: &mut Vec<u8>, width: usize, bytes: &[u8]) -> Result<(), NoMemory>
    ensures { OnOk result (text.new.items ≡ text.old.items ++ left_of width bytes.now) }
{
    push(text, bytes)?;
    push_times(text, width.saturating_sub(bytes.len()), b' ')
}

/// Adds the bytes at the right of so many columns.
#[tactic(auto, unfolding(crate::specs::Tables::right_of))]
fn push_right(text: &mut Vec<u8>, width: usize, bytes: &[u8]) -> Result<(), NoMemory>
    ensures { OnOk result (text.new.items ≡ text.old.items ++ right_of width bytes.now) }
{
    push_times(text, width.saturating_sub(bytes.len()), b' ')?;
    push(text, bytes)
}

/// Adds the number at the right of so many columns.
pub(crate) fn push_column(text: &mut Vec<u8>, width: usize, number: u64) -> Result<(), NoMemory>
    ensures { OnOk result (text.new.items
        ≡ text.old.items ++ right_of width (decimal number)) }
{
    let mut digits = Buffer::new();
    push_right(text, width, digits.format(number).as_bytes())
}

/// Adds a mark for each five of a hundred.
#[tactic(auto, unfolding(crate::specs::Tables::bar_text))]
pub(crate) fn push_bar(text: &mut Vec<u8>, percent: u64) -> Result<(), NoMemory>
    ensures { OnOk result (text.new.items ≡ text.old.items ++ bar_text percent) }
{
    if percent < 5 {
        return Ok(());
    }
    push(text, b"  ")?;
    push_times(text, (percent / 5) as usize, b'#')
}
