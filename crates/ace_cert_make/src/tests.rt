//! The certificate of a worked run: a port reads a line, loads from it and stores to it.

ghost use Rattle.std.specs.Prelude.{◌≡◌};
ghost use Rattle.ace_event.specs.declared.event.Event.TheVariants.{Op, R};
ghost use Rattle.ace_cert.specs.Worked.{loads_and_stores};

use crate::make;
use ace_cert::ReadPlace;
use ace_codes::LineState;
use ace_event::{Channel, Event, Header, Line, Outcome};
use std::test::Fail;

const ONE_ACE: Header = Header {
    version: 1,
    ports: 1,
    ace: 1,
};

/// A beat of the read.
fn beat(last: bool) -> Event
    ensures { result ≡ R 0 0 0 last 0 }
{
    Event::R {
        port: 0,
        id: 0,
        resp: 0,
        last,
        word: 0,
    }
}

/// The end of an operation.
fn retired(k: u16, res: Outcome) -> Event
    ensures { result ≡ Op 0 k res }
{
    Event::Op { port: 0, k, res }
}

/// The run, as `Worked` has it.
fn loads_and_stores() -> [Event; 12]
    ensures { result ≡ loads_and_stores }
{
    [
        Event::Ar {
            port: 0,
            id: 0,
            addr: 0x40,
            snoop: 1,
            dom: 1,
            bar: 0,
            lock: false,
        },
        Event::G {
            port: 0,
            chan: Channel::Read,
            id: 0,
        },
        beat(false),
        beat(false),
        beat(false),
        beat(true),
        Event::Rk {
            port: 0,
            st: LineState::UC,
        },
        Event::L {
            port: 0,
            addr: 0x40,
            w: 0,
            x: false,
            word: 0,
        },
        retired(0, Outcome::Ok),
        Event::D {
            port: 0,
            addr: 0x40,
            strobe: 0xffff,
            x: false,
            line: Line {
                words: [0x11111111111111111111111111111111, 0, 0, 0],
            },
        },
        retired(1, Outcome::Ok),
        retired(2, Outcome::Skip),
    ]
}

#[test]
fn a_run_gets_its_certificate(rt: HostRuntime) -> Result<(), Fail> {
    let trace = loads_and_stores();
    let cert = make(rt.alloc(), &ONE_ACE, &trace)?;
    assert_eq!(rt; cert.lines.len(), 1);
    assert_eq!(rt; cert.lines.get(0).addr, 0x40);
    assert_eq!(rt; cert.lines.get(0).stores.len(), 1);
    assert_eq!(rt; *cert.lines.get(0).stores.get(0), 10);
    assert_eq!(rt; cert.reads.len(), 2);
    assert_eq!(rt; *cert.reads.get(0), ReadPlace { event: 1, place: 2 });
    assert_eq!(rt; *cert.reads.get(1), ReadPlace { event: 8, place: 7 });
    Ok(())
}
