//! Bursts, as an engine fills them.

use ace_engine::Burst;
use ace_event::Event;
use std::test::Fail;

fn response(id: u8) -> Event {
    Event::B {
        port: 0,
        id,
        resp: 0,
    }
}

/// The burst has just these events.
pub fn has_events(burst: &Burst, events: &[Event]) -> bool {
    if usize::from(burst.len()) != events.len() {
        return false;
    }
    for i in 0..burst.len() {
        if burst.get(i) != events[usize::from(i)] {
            return false;
        }
    }
    true
}

/// A burst has the events that were put in it, in their order.
#[test]
fn holds_what_was_put(rt: HostRuntime) -> Result<(), Fail> {
    let mut burst = Burst::empty();
    assert!(rt; burst.len() == 0);
    for id in 0..16 {
        if burst.len() < 16 {
            burst.push(response(id));
        }
    }
    assert!(rt; burst.len() == 16);
    assert!(rt; burst.get(0) == response(0) && burst.get(15) == response(15));
    Ok(())
}
