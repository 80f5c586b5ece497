// Texts that stand in others.
ghost use Rattle.std.specs.Prelude.{◌≡◌, ◌<◌, ◌++◌, flat_map, OnOk};
ghost use Rattle.std.specs.Char.{digit_char};
ghost use Rattle.ace_batch.specs.Escapes.{json_byte, json_text, xml_byte, xml_from, xml_text};

use crate::push::push;
use ace_io::NoMemory;

/// The digit of a number below 16 in hexadecimal.
fn digit(value: u8) -> u8
    requires { value < 16 }
    ensures { result ≡ digit_char value }
{
    if value < 10 {
        b'0' + value
    } else {
        b'a' + (value - 10)
    }
}

/// Adds the byte as it stands in a JSON string.
fn push_json_byte(text: &mut Vec<u8>, byte: u8) -> Result<(), NoMemory>
    ensures { OnOk result (text.new.items ≡ text.old.items ++ json_byte byte) }
{
    match byte {
        b'"' => push(text, b"\\\""),
        b'\\' => push(text, b"\\\\"),
        b'\n' => push(text, b"\\n"),
        0..32 => {
            push(text, b"\\u00")?;
            push(text, &[digit(byte / 16), digit(byte % 16)])
        }
        _ => push(text, &[byte]),
    }
}

/// Adds the text as it stands in a JSON string.
///
/// # Errors
///
/// `NoMemory` where there is none for the longer text.
#[tactic(auto, using(crate::proofs::Escaping::json_step))]
pub fn push_json(text: &mut Vec<u8>, given: &[u8]) -> Result<(), NoMemory>
    ensures { OnOk result (text.new.items ≡ text.old.items ++ json_text given.now) }
{
    for byte in given {
        push_json_byte(text, *byte)?;
    }
    Ok(())
}

/// Adds the byte as it stands in XML behind these two, where line feeds may stand or not.
fn push_xml_byte(
    text: &mut Vec<u8>,
    lines: bool,
    second: u8,
    first: u8,
    byte: u8,
) -> Result<(), NoMemory>
    ensures { OnOk result (text.new.items ≡ text.old.items ++ xml_byte lines second first byte) }
{
    match byte {
        b'&' => push(text, b"&amp;"),
        b'<' => push(text, b"&lt;"),
        b'>' => push(text, b"&gt;"),
        b'"' => push(text, b"&quot;"),
        b'\n' if lines => push(text, b"\n"),
        0..32 | 127 => push(text, b"?"),
        190..192 if second == 239 && first == 191 => push(text, b"\xbd"),
        _ => push(text, &[byte]),
    }
}

/// Adds the text as it stands in XML, with its line feeds or not.
#[tactic(auto, using(crate::proofs::Escaping::xml))]
pub(crate) fn push_xml(text: &mut Vec<u8>, lines: bool, given: &[u8]) -> Result<(), NoMemory>
    ensures { OnOk result (text.new.items ≡ text.old.items ++ xml_text lines given.now) }
{
    let mut second = 0;
    let mut first = 0;
    for byte in given {
        push_xml_byte(text, lines, second, first, *byte)?;
        second = first;
        first = *byte;
    }
    Ok(())
}
