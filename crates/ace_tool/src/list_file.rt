// The file that lists traces.
ghost use Rattle.std.specs.Prelude.{◌≡◌, false, IfOk, string_bytes};
ghost use Rattle.ace_tool.specs.Asked.{is_input};
ghost use Rattle.ace_tool.specs.Held.{told_of};
ghost use Rattle.ace_tool.specs.ListTexts.{IsListText, IsWhole, TakesSome};

use crate::check_words::is_input;
use crate::folder::{Folder, OpenErr};
use ace_io::Source;
use std::alloc::Global;

/// Why a list of traces could not be had.
#[derive(Clone, Copy)]
pub enum ListErr {
    /// Its file could not be opened.
    Shut { error: OpenErr },
    /// Reading it failed.
    ReadFault,
    /// It isn't UTF-8.
    NoText,
    /// There was no memory for it.
    NoMemory,
}

/// Takes some more bytes of the source, and says whether there were any.
fn take_some<S: Source>(source: &mut S, bytes: &mut Vec<u8>) -> Result<bool, ListErr>
    ensures { IfOk result (λ some. TakesSome (S.left source.old) (S.left source.new) bytes.old.items
        bytes.new.items some) }
{
    let mut piece = [0; 256];
    match source.take(&mut piece) {
        Ok(count) => match bytes.extend_from_slice(&piece[..count]) {
            Ok(()) => Ok(count > 0),
            Err(_) => Err(ListErr::NoMemory),
        },
        Err(_) => Err(ListErr::ReadFault),
    }
}

/// All bytes that the source has left. More than can be counted want more memory than there is.
#[tactic(auto, using(crate::proofs::ListReading::taking))]
pub(crate) fn take_all<S: Source>(alloc: Global, source: &mut S) -> Result<Vec<u8>, ListErr>
    ensures { IfOk result (λ bytes. IsWhole (S.left source.old) bytes.items) }
{
    let mut bytes = Vec::new(alloc);
    for piece in 0..u64::MAX {
        if !take_some(source, &mut bytes)? {
            return Ok(bytes);
        }
    }
    Err(ListErr::NoMemory)
}

/// The text that the source gives.
fn read_text<S: Source>(alloc: Global, source: &mut S) -> Result<String, ListErr>
    ensures { IfOk result (λ text. IsWhole (S.left source.old) (string_bytes text)) }
{
    let bytes = take_all(alloc, source)?;
    let Ok(text) = str::from_utf8(bytes.as_slice()) else {
        return Err(ListErr::NoText);
    };
    match String::from_str(alloc, text) {
        Ok(text) => Ok(text),
        Err(_) => Err(ListErr::NoMemory),
    }
}

/// The text of the file of this name.
///
/// # Errors
///
/// Why it could not be had.
pub(crate) fn read_file<F: Folder>(alloc: Global, files: &F, name: &str) -> Result<String, ListErr>
    ensures { IfOk result (λ text. IsWhole (told_of (F.holds files.now name.now))
        (string_bytes text)) }
{
    match files.open(name) {
        Ok(mut file) => read_text(alloc, &mut file),
        Err(error) => Err(ListErr::Shut { error }),
    }
}

/// The text of the file of this name, or of standard input.
///
/// # Errors
///
/// Why it could not be had.
pub(crate) fn read_list<F: Folder, I: Source>(
    alloc: Global,
    files: &F,
    input: &mut I,
    name: &str,
) -> Result<String, ListErr>
    ensures text { IfOk result (λ text. IsListText (is_input name.now)
        (told_of (F.holds files.now name.now))
        (I.left input.old) (string_bytes text)) }
    // Standard input is read only where it is named.
    ensures kept { is_input name.now ≡ false → I.left input.new ≡ I.left input.old }
{
    if is_input(name) {
        return read_text(alloc, input);
    }
    read_file(alloc, files, name)
}
