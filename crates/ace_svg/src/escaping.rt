// Words in a picture.
ghost use Rattle.std.specs.Prelude.{◌≡◌, ◌++◌, ◌∷◌, [], OnOk, flat_map};
ghost use Rattle.ace_svg.specs.Escaping.{escaped, escaped_byte};

use crate::pushing::push;
use ace_io::NoMemory;

/// Adds one byte of words.
#[tactic(auto, unfolding(crate::specs::Escaping::escaped_byte))]
fn push_byte(text: &mut Vec<u8>, byte: u8) -> Result<(), NoMemory>
    ensures { OnOk result (text.new.items ≡ text.old.items ++ escaped_byte byte) }
{
    match byte {
        b'&' => push(text, b"&amp;"),
        b'<' => push(text, b"&lt;"),
        b'>' => push(text, b"&gt;"),
        b'"' => push(text, b"&quot;"),
        32..=126 => push(text, &[byte]),
        _ => push(text, b"?"),
    }
}

/// Adds words, in which no byte begins an element or ends one.
///
/// # Errors
///
/// `NoMemory` where there is none for the longer text.
pub(crate) fn push_escaped(text: &mut Vec<u8>, words: &[u8]) -> Result<(), NoMemory>
    ensures { OnOk result (text.new.items ≡ text.old.items ++ escaped words.now) }
{
    for byte in words {
        push_byte(text, *byte)?;
    }
    Ok(())
}
