//! The maker of a certificate.

ghost use Rattle.std.specs.Prelude.{◌≡◌, ◌≤◌, ◌∷◌, [], IfOk, OnOk, length};
ghost use Rattle.std.specs.List.{AllByRecursion};
ghost use Rattle.ace_event.specs.Range.{FitsFields};
ghost use Rattle.ace_event.specs.declared.header.Header.{Header};
ghost use Rattle.ace_model.specs.Accepted.{IsAccepted};
ghost use Rattle.ace_model.specs.Trace.{Trace};
ghost use Rattle.ace_portck.specs.Stands.{Stands as Tell};
ghost use Rattle.ace_cert.specs.Certificates.{IsCertificate};
ghost use Rattle.ace_cert_make.specs.Stands.{IsNext, Stands};

use crate::lines::{hear_line, list_lines};
use crate::reads::{hear_read, list_reads};
use crate::track::{LineTrack, number_of};
use ace_cert::Cert;
use ace_event::Event;
use ace_io::NoMemory;
use ace_portck::PortCheck;
use std::alloc::Global;
use std::collections::BTreeMap;

/// Makes the certificate of an accepted trace. It is told the events one by one, and keeps none of
/// them: of each line it keeps the numbers of its stores and where a read of it would stand, and of
/// each read its place.
#[derive(Drop)]
pub struct Maker {
    alloc: Global,
    lines: BTreeMap<u32, LineTrack>,
    /// The places of the loads and reads, by their numbers.
    reads: BTreeMap<u32, u32>,
}

impl Maker {
    /// The maker of the empty trace. It takes no memory.
    pub fn new(alloc: Global) -> Maker
        ensures { Stands result [] }
    {
        Maker {
            alloc,
            lines: BTreeMap::new(alloc),
            reads: BTreeMap::new(alloc),
        }
    }

    /// Hears the next event of an accepted trace, with the ports before it.
    ///
    /// # Errors
    ///
    /// `NoMemory` where there is none for a line, a store or a read. The maker is of no use then.
    pub fn hear(&mut self, event: &Event, ports: &PortCheck) -> Result<(), NoMemory>
        ensures { (h : Header) (past : Trace)
            → Tell ports.now (record { header = h; past = past }) → Stands self.old past
            → IsNext h past event.now → OnOk result (Stands self.new (event.now ∷ past)) }
    {
        let number = number_of(ports.place());
        match hear_read(&mut self.reads, &self.lines, event, ports, number) {
            Ok(()) => hear_line(&mut self.lines, self.alloc, event, ports, number),
            Err(none) => Err(none),
        }
    }

    /// The certificate of what was heard.
    ///
    /// # Errors
    ///
    /// `NoMemory` where there is none for it.
    pub fn finish(self) -> Result<Cert, NoMemory>
        ensures { (h : Header) (past : Trace) → Stands self past → IsAccepted h past
            → AllByRecursion FitsFields past → IfOk result (IsCertificate past) }
    {
        let Maker {
            alloc,
            lines,
            reads,
        } = self;
        let lines = match list_lines(alloc, lines) {
            Ok(lines) => lines,
            Err(none) => return Err(none),
        };
        match list_reads(alloc, &reads) {
            Ok(reads) => Ok(Cert { lines, reads }),
            Err(none) => Err(none),
        }
    }
}
