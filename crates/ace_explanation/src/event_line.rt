// The text of an event, as it stands in its trace, with its data folded.
ghost use Rattle.std.specs.Prelude.{◌≡◌, ◌++◌, ◌≤◌, ℕ, List, length, OnOk};
ghost use Rattle.std.specs.Io.KnownBytes.{Appends};
ghost use Rattle.ace_event.specs.Ports.{IsHeader};
ghost use Rattle.ace_event.specs.Range.{InRange};
ghost use Rattle.ace_event.specs.Text.{event_text, header_text, line_text};
ghost use Rattle.ace_event_words.specs.Folding.{folded_text};

use ace_event::{Event, Header};
use ace_event_words::push_folded_event;
use ace_io::{MemSink, NoMemory, Sink};
use ace_writer::Writer;
use std::alloc::Global;

/// Room for the two lines of a header and the line of an event.
const ROOM: usize = 256;

/// How many bytes the two lines of the header have.
#[tactic(auto, using(crate::proofs::HeaderLines::header_len))]
fn header_len(header: &Header) -> usize
    requires { header.now.ports ≤ 32 }
    ensures { result ≡ length (header_text header.now) }
{
    13 + header.ports as usize
}

/// Gives the lines of the header and of one event.
fn give_lines<K: Sink>(sink: &mut K, header: &Header, event: &Event) -> Result<(), NoMemory>
    requires header { IsHeader header.now }
    requires range { InRange header.now.version event.now }
    ensures { OnOk result (Appends (K.held sink.old) (K.held sink.new)
        (header_text header.now ++ line_text (event_text header.now.version event.now))) }
{
    let Ok(mut writer) = Writer::start(sink, header) else {
        return Err(NoMemory);
    };
    if writer.put(event).is_err() || writer.flush().is_err() {
        return Err(NoMemory);
    }
    Ok(())
}

/// The line without its line feed.
#[tactic(auto, using(crate::proofs::EventLines::without_feed))]
fn without_feed(line: &[u8]) -> &[u8]
    ensures { (text : List ℕ) → line.now ≡ line_text text → result.now ≡ text }
{
    &line[..line.len().saturating_sub(1)]
}

/// Adds the text of the event, as it stands in a trace with this header, with its data folded.
///
/// # Errors
///
/// `NoMemory` where there is none for the longer text.
pub(crate) fn push_event_text(
    alloc: Global,
    text: &mut Vec<u8>,
    header: &Header,
    event: &Event,
) -> Result<(), NoMemory>
    requires header { IsHeader header.now }
    requires range { InRange header.now.version event.now }
    ensures { OnOk result (text.new.items ≡ text.old.items
        ++ folded_text event.now (event_text header.now.version event.now)) }
{
    let mut sink = MemSink::new(alloc, ROOM, &[])?;
    give_lines(&mut sink, header, event)?;
    let line = &sink.bytes()[header_len(header)..];
    push_folded_event(text, event, without_feed(line))
}
