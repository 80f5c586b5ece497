// Texts that grow.
ghost use Rattle.std.specs.Prelude.{◌≡◌, ◌++◌, ◌-◌, replicate, decimal, OnOk};

use ace_io::NoMemory;
use itoa::Buffer;

/// Adds the bytes at the end.
pub(crate) fn push(text: &mut Vec<u8>, bytes: &[u8]) -> Result<(), NoMemory>
    ensures { OnOk result (text.new.items ≡ text.old.items ++ bytes.now) }
{
    match text.extend_from_slice(bytes) {
        Ok(()) => Ok(()),
        Err(_) => Err(NoMemory),
    }
}

/// Adds the digits of the number.
pub(crate) fn push_number(text: &mut Vec<u8>, number: u64) -> Result<(), NoMemory>
    ensures { OnOk result (text.new.items ≡ text.old.items ++ decimal number) }
{
    let mut digits = Buffer::new();
    push(text, digits.format(number).as_bytes())
}

/// Adds so many spaces.
#[tactic(auto, using(crate::proofs::Spaces::spaces))]
pub(crate) fn push_spaces(text: &mut Vec<u8>, count: usize) -> Result<(), NoMemory>
    ensures { OnOk result (text.new.items ≡ text.old.items ++ replicate count 32) }
{
    for done in 0..count {
        push(text, b" ")?;
    }
    Ok(())
}
