// Texts with colours.
ghost use Rattle.std.specs.Prelude.{◌≡◌, ◌+◌, ◌++◌, ◌≤◌, IfOk, OnOk, length};
ghost use Rattle.ace_terminal.specs.Painted.{colour_start, in_style, painted, painted_as, painted_line};

use crate::looks::{Colour, Look, look_of};
use ace_io::NoMemory;
use std::alloc::Global;

/// Adds the bytes at the end.
fn push(text: &mut Vec<u8>, bytes: &[u8]) -> Result<(), NoMemory>
    ensures { OnOk result (text.new.items ≡ text.old.items ++ bytes.now) }
{
    match text.extend_from_slice(bytes) {
        Ok(()) => Ok(()),
        Err(_) => Err(NoMemory),
    }
}

/// Adds the bytes in the style that so begins, if there are any.
fn push_in_style(text: &mut Vec<u8>, start: &[u8], bytes: &[u8]) -> Result<(), NoMemory>
    ensures { OnOk result (text.new.items ≡ text.old.items ++ in_style start.now bytes.now) }
{
    if bytes.is_empty() {
        return Ok(());
    }
    push(text, start)?;
    push(text, bytes)?;
    push(text, b"\x1b[0m")
}

/// How a colour begins.
fn colour_start(colour: Colour) -> &'static [u8]
    ensures { result.now ≡ colour_start colour }
{
    match colour {
        Colour::Red => b"\x1b[1;31m",
        Colour::Blue => b"\x1b[1;34m",
    }
}

/// Adds the line in this look.
#[tactic(auto, unfolding(crate::specs::Painted::painted_as))]
fn push_painted(text: &mut Vec<u8>, line: &[u8], look: Look) -> Result<(), NoMemory>
    requires { look.bold + look.plain + look.coloured ≤ length line.now }
    ensures { OnOk result (text.new.items ≡ text.old.items ++ painted_as look line.now) }
{
    let behind_bold = &line[look.bold..];
    let behind_plain = &behind_bold[look.plain..];
    push_in_style(text, b"\x1b[1m", &line[..look.bold])?;
    push(text, &behind_bold[..look.plain])?;
    push_in_style(
        text,
        colour_start(look.colour),
        &behind_plain[..look.coloured],
    )?;
    push(text, &behind_plain[look.coloured..])
}

/// Adds the line painted.
#[tactic(auto, unfolding(crate::specs::Painted::painted_line))]
fn push_line(text: &mut Vec<u8>, line: &[u8]) -> Result<(), NoMemory>
    ensures { OnOk result (text.new.items ≡ text.old.items ++ painted_line line.now) }
{
    push_painted(text, line, look_of(line))
}

/// The text painted line by line.
///
/// # Errors
///
/// `NoMemory` where there is none for it.
pub fn paint(alloc: Global, text: &[u8]) -> Result<Vec<u8>, NoMemory>
    ensures { IfOk result (λ r. r.items ≡ painted text.now) }
{
    let mut painted = Vec::new(alloc);
    let mut start = 0;
    for (place, byte) in text.iter().enumerate() {
        if *byte == b'\n' {
            push_line(&mut painted, &text[start..place])?;
            push(&mut painted, b"\n")?;
            start = place + 1;
        }
    }
    push_line(&mut painted, &text[start..])?;
    Ok(painted)
}
