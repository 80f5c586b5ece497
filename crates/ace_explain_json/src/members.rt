// Values of members of a JSON object.
ghost use Rattle.std.specs.Prelude.{◌≡◌, ◌+◌, ◌++◌, OnOk, decimal, flat_map, option_map};
ghost use Rattle.ace_batch.specs.Json.{number_json};
ghost use Rattle.ace_event_words.specs.Sentences.{kind_words};
ghost use Rattle.ace_explain_json.specs.Members.{address_json, called, kind_in, letter, quoted, quoted_if, record_json};

use ace_batch::push_json;
use ace_event::Channel;
use ace_event_words::{Deed, Kind, read_words, record_column, snoop_words, write_words};
use ace_io::NoMemory;
use ace_malformed::{push, push_number};
use ace_writer::TextBuf;
use itoa::Buffer;

/// Adds a text in quotes.
#[tactic(auto, unfolding(crate::specs::Members::quoted))]
pub(crate) fn push_quoted(text: &mut Vec<u8>, given: &[u8]) -> Result<(), NoMemory>
    ensures { OnOk result (text.new.items ≡ text.old.items ++ quoted given.now) }
{
    push(text, b"\"")?;
    push_json(text, given)?;
    push(text, b"\"")
}

/// Adds a text in quotes, or that there is none.
pub(crate) fn push_quoted_if(text: &mut Vec<u8>, given: Option<&[u8]>) -> Result<(), NoMemory>
    ensures { OnOk result (text.new.items
        ≡ text.old.items ++ quoted_if (option_map (λ it. it.now) given.entry)) }
{
    match given {
        Some(given) => push_quoted(text, given),
        None => push(text, b"null"),
    }
}

/// Adds the number of a port, or that there is none.
pub(crate) fn push_port(text: &mut Vec<u8>, port: Option<u8>) -> Result<(), NoMemory>
    ensures { OnOk result (text.new.items ≡ text.old.items ++ number_json port) }
{
    match port {
        Some(port) => push_number(text, u64::from(port)),
        None => push(text, b"null"),
    }
}

/// Adds the number of the line of the trace that has the event of this number.
pub(crate) fn push_line_of(text: &mut Vec<u8>, index: u64) -> Result<(), NoMemory>
    ensures { OnOk result (text.new.items ≡ text.old.items ++ decimal (index + 2)) }
{
    let mut digits = Buffer::new();
    push(text, digits.format(u128::from(index) + 2).as_bytes())
}

/// Adds the address of a line, or that there is none.
pub(crate) fn push_address(text: &mut Vec<u8>, line: Option<u32>) -> Result<(), NoMemory>
    ensures { OnOk result (text.new.items ≡ text.old.items ++ address_json line) }
{
    match line {
        Some(line) => {
            let mut digits = TextBuf::empty();
            digits.push_digits(8, u128::from(line));
            push(text, b"\"")?;
            push(text, digits.bytes())?;
            push(text, b"\"")
        }
        None => push(text, b"null"),
    }
}

/// Adds the byte, if it is no space.
fn push_letter(text: &mut Vec<u8>, byte: u8) -> Result<(), NoMemory>
    ensures { OnOk result (text.new.items ≡ text.old.items ++ letter byte) }
{
    if byte == b' ' {
        Ok(())
    } else {
        push(text, &[byte])
    }
}

/// Adds the bytes that are no spaces.
#[tactic(auto, using(crate::proofs::Letters::letter_step))]
fn push_letters(text: &mut Vec<u8>, column: &[u8]) -> Result<(), NoMemory>
    ensures { OnOk result (text.new.items ≡ text.old.items ++ flat_map letter column.now) }
{
    for byte in column {
        push_letter(text, *byte)?;
    }
    Ok(())
}

/// Adds the record of an event.
#[tactic(auto, unfolding(crate::specs::Members::record_json))]
pub(crate) fn push_record(text: &mut Vec<u8>, deed: &Deed) -> Result<(), NoMemory>
    ensures { OnOk result (text.new.items
        ≡ text.old.items ++ record_json deed.now) }
{
    push(text, b"\"")?;
    push_letters(text, record_column(deed))?;
    push(text, b"\"")
}

/// What a transaction of the kind is called.
fn kind_words(kind: &Kind) -> &'static [u8]
    ensures { result.now ≡ kind_words kind.now }
{
    match kind.chan {
        Channel::Read => read_words(kind.snoop, kind.dom, kind.bar),
        Channel::Write => write_words(kind.snoop, kind.dom, kind.bar),
    }
}

/// The same, if there is one.
fn called(kind: &Option<Kind>) -> Option<&'static [u8]>
    ensures { option_map (λ it. it.now) result ≡ called kind.now }
{
    match kind {
        Some(kind) => Some(kind_words(kind)),
        None => None,
    }
}

/// What the transaction is called that the event belongs to, and of an AC the snoop.
pub(crate) fn kind_in(deed: &Deed) -> Option<&'static [u8]>
    ensures { option_map (λ it. it.now) result ≡ kind_in deed.now }
{
    match deed {
        Deed::Ar { kind, .. } | Deed::Aw { kind, .. } => Some(kind_words(kind)),
        Deed::R { kind, .. }
        | Deed::Rk { kind, .. }
        | Deed::W { kind, .. }
        | Deed::B { kind, .. }
        | Deed::Wk { kind, .. }
        | Deed::G { kind, .. }
        | Deed::M { kind, .. } => called(kind),
        Deed::Ac { snoop, .. } => Some(snoop_words(*snoop)),
        _ => None,
    }
}
