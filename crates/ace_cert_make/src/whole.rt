//! The certificate of a whole trace.

ghost use Rattle.std.specs.Prelude.{◌≤◌, ◌∷◌, IfOk, OnOk, length, reverse};
ghost use Rattle.ace_event.specs.Ports.{IsHeader};
ghost use Rattle.ace_event.specs.declared.header.Header.{Header};
ghost use Rattle.ace_model.specs.Accepted.{IsAccepted};
ghost use Rattle.ace_model.specs.Trace.{Trace};
ghost use Rattle.ace_portck.specs.Stands.{HasRoom, Stands as Tell};
ghost use Rattle.ace_cert.specs.Certificates.{IsCertificate};
ghost use Rattle.ace_cert_make.specs.Stands.{Hears, IsNext};

use crate::maker::Maker;
use ace_cert::Cert;
use ace_event::laws::every_event_fits;
use ace_event::{Event, Header};
use ace_io::NoMemory;
use ace_portck::PortCheck;
use std::alloc::Global;

/// Makes room for the snoop of an AC.
fn make_room(ports: &mut PortCheck, event: &Event) -> Result<(), NoMemory>
    ensures stands { (h : Header) (past : Trace)
        → Tell ports.old (record { header = h; past = past })
        → OnOk result (Tell ports.new (record { header = h; past = past })) }
    ensures room { OnOk result (HasRoom ports.new event.now) }
{
    match *event {
        Event::Ac { port, .. } => ports.make_snoop_room(port),
        _ => Ok(()),
    }
}

/// Both hear the next event.
fn hear_next(ports: &mut PortCheck, maker: &mut Maker, event: &Event) -> Result<(), NoMemory>
    ensures { (h : Header) (past : Trace) → Hears ports.old maker.old h past
        → IsNext h past event.now
        → OnOk result (Hears ports.new maker.new h (event.now ∷ past)) }
{
    every_event_fits(*event);
    match make_room(ports, event) {
        Ok(()) => {}
        Err(none) => return Err(none),
    }
    match maker.hear(event, ports) {
        Ok(()) => {
            ports.hear(event);
            Ok(())
        }
        Err(none) => Err(none),
    }
}

/// The certificate of an accepted trace of at most 1,048,576 events.
///
/// # Errors
///
/// `NoMemory` where there is none.
pub fn make(alloc: Global, header: &Header, trace: &[Event]) -> Result<Cert, NoMemory>
    requires header { IsHeader header.now }
    requires accepted { IsAccepted header.now (reverse trace.now) }
    requires few { length trace.now ≤ 1048576 }
    ensures { IfOk result (IsCertificate (reverse trace.now)) }
{
    let Ok(mut ports) = PortCheck::new(alloc, *header) else {
        return Err(NoMemory);
    };
    let mut maker = Maker::new(alloc);
    for event in trace {
        match hear_next(&mut ports, &mut maker, event) {
            Ok(()) => {}
            Err(none) => return Err(none),
        }
    }
    maker.finish()
}
