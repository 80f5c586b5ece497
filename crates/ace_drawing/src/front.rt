// The events at the front of a trace.
ghost use Rattle.std.specs.Prelude.{◌≡◌, ◌+◌, ℕ, List, [], None, length, IfOk, OnOk};
ghost use Rattle.ace_drawing.specs.Fronts.{IsFront};
ghost use Rattle.ace_grammar.specs.Reader.{HasRead, header_of, last_answer};

use ace_event::{Event, Header};
use ace_grammar::{MOST_COUNTED, Reader};
use ace_io::{Source, StdSource};
use std::alloc::Global;

/// The header of a trace, and events at its front.
#[derive(Drop)]
pub(crate) struct Front {
    pub(crate) header: Header,
    pub(crate) events: Vec<Event>,
}

/// There are fewer events than that, or no memory for them.
#[derive(Clone, Copy)]
pub(crate) struct Unread;

/// Reads the next event.
fn read_next<S: Source>(reader: &mut Reader<'_, S>, events: &mut Vec<Event>) -> Result<(), Unread>
    requires { last_answer reader.old ≡ None }
    ensures header { header_of reader.new ≡ header_of reader.old }
    ensures reads_on { OnOk result (last_answer reader.new ≡ None) }
    ensures read { (bytes : List ℕ) → HasRead S.left bytes events.old.items reader.old
        → OnOk result (HasRead S.left bytes events.new.items reader.new) }
    ensures count { OnOk result (length events.new.items ≡ length events.old.items + 1) }
{
    match reader.next() {
        Ok(Some(event)) => match events.push(event) {
            Ok(()) => Ok(()),
            Err(_) => Err(Unread),
        },
        Ok(None) => Err(Unread),
        Err(_) => Err(Unread),
    }
}

/// Reads so many events.
fn read_events<S: Source>(
    reader: &mut Reader<'_, S>,
    events: &mut Vec<Event>,
    count: u64,
) -> Result<(), Unread>
    requires none { events.old.items ≡ [] }
    requires new { last_answer reader.old ≡ None }
    ensures header { header_of reader.new ≡ header_of reader.old }
    ensures read { (bytes : List ℕ) → HasRead S.left bytes [] reader.old
        → OnOk result (HasRead S.left bytes events.new.items reader.new) }
    ensures count { OnOk result (length events.new.items ≡ count) }
{
    for _ in 0..count {
        match read_next(reader, events) {
            Ok(()) => {}
            Err(unread) => return Err(unread),
        }
    }
    Ok(())
}

/// The header of the trace in these bytes, and so many events at its front.
///
/// # Errors
///
/// `Unread` where there are not so many, or there is no memory for them.
pub(crate) fn front_of(alloc: Global, bytes: &[u8], count: u64) -> Result<Front, Unread>
    ensures { IfOk result (λ f. IsFront bytes.now count f.header f.events.items) }
{
    let mut source = StdSource::new(bytes);
    let mut reader = match Reader::start_within(alloc, &mut source, MOST_COUNTED) {
        Ok(reader) => reader,
        Err(_) => return Err(Unread),
    };
    let mut events = Vec::new(alloc);
    match read_events(&mut reader, &mut events, count) {
        Ok(()) => Ok(Front {
            header: reader.header(),
            events,
        }),
        Err(unread) => Err(unread),
    }
}
