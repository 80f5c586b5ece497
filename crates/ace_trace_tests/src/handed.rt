// Events that are handed over as they are read, and those that are not.
ghost use Rattle.std.specs.Prelude.{◌<◌};

use ace_codes::LineState;
use ace_event::Event;
use ace_grammar::{NO_EVENT, Reader};
use ace_io::MemSource;
use std::alloc::Global;

/// How many events of a text, of which a source gives so many bytes at once, are handed over one
/// after another to the place of an event, and what stands there then. None where there is no
/// reader of the text.
fn handed(alloc: Global, text: &[u8], size: usize) -> Option<(u8, Event)>
    requires { 0 < size }
{
    let Ok(mut source) = MemSource::new(alloc, text, &[size], &[]) else {
        return None;
    };
    let Ok(mut reader) = Reader::start(alloc, &mut source) else {
        return None;
    };
    let mut event = NO_EVENT;
    for count in 0..9 {
        if !reader.hands_over(&mut event) {
            return Some((count, event));
        }
    }
    None
}

/// Whether so many are, and the last is this one.
fn are_handed(alloc: Global, text: &[u8], size: usize, count: u8, last: &Event) -> bool
    requires { 0 < size }
{
    match handed(alloc, text, size) {
        Some((handed, event)) => handed == count && event == *last,
        None => false,
    }
}

/// Whether one call hands all of the text's events over to the place of an event, of which a source
/// gives so many bytes at once, and leaves this one there.
fn are_all_handed(alloc: Global, text: &[u8], size: usize, last: &Event) -> bool
    requires { 0 < size }
{
    let Ok(mut source) = MemSource::new(alloc, text, &[size], &[]) else {
        return false;
    };
    let Ok(mut reader) = Reader::start(alloc, &mut source) else {
        return false;
    };
    let mut event = NO_EVENT;
    let mut more = NO_EVENT;
    reader.hands_all_over(&mut event);
    event == *last && !reader.hands_over(&mut more)
}

#[test]
fn hands_events_over(rt: HostRuntime) {
    let alloc = rt.alloc();
    let last = Event::Rk {
        port: 1,
        st: LineState::UD,
    };
    assert!(rt;
        are_handed(alloc, b"ACE 1\nPORTS AA\nRK 0 SC\nRK 1 UD\n", 64, 2, &last)
            && are_handed(alloc, b"ACE 1\nPORTS AA\nRK 1 UD\nRK 0 SC", 64, 1, &last)
            && are_handed(alloc, b"ACE 1\nPORTS AA\nRK 1 UD\nRK 0 XC\n", 64, 1, &last)
            && are_handed(alloc, b"ACE 1\nPORTS AA\n", 64, 0, &NO_EVENT)
            && are_handed(alloc, b"ACE 1\nPORTS AA\nRK 1 UD\n", 1, 0, &NO_EVENT)
            && are_handed(alloc, b"ACE 2\nPORTS AA\nRK 01 UD\n", 64, 0, &NO_EVENT)
    );
}

#[test]
fn hands_all_events_over(rt: HostRuntime) {
    let alloc = rt.alloc();
    let last = Event::Rk {
        port: 1,
        st: LineState::UD,
    };
    assert!(rt;
        are_all_handed(
            alloc,
            b"ACE 1\nPORTS AA\nRK 0 SC\nRK 1 UC\nRK 1 UD\n",
            64,
            &last
        ) && are_all_handed(alloc, b"ACE 1\nPORTS AA\nRK 1 UD\nRK 0 SC", 64, &last)
            && are_all_handed(
                alloc,
                b"ACE 1\nPORTS AA\nRK 0 SC\nRK 1 UD\nRK 0 XC\n",
                64,
                &last
            )
            && are_all_handed(alloc, b"ACE 1\nPORTS AA\n", 64, &NO_EVENT)
            && are_all_handed(alloc, b"ACE 2\nPORTS AA\nRK 01 UD\n", 64, &NO_EVENT)
    );
}
