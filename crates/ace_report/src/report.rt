//! The report, as it counts an accepted trace event by event.

use crate::lines::{hear_line, wanted_line};
use crate::loads::hear_load;
use crate::ports::{count, no_counts};
use crate::put::put_all;
use crate::tally::{LineTally, Load, PortTally};
use ace_event::{Event, Header, Line};
use ace_io::{Failed, NoMemory, Sink};
use ace_portck::PortCheck;
use std::alloc::Global;
use std::collections::BTreeMap;

/// What a report says of an accepted trace. It keeps a number for each thing that a port does, the
/// stores and the value of each line that a transaction names, and each load, which are the things
/// that it prints.
#[derive(Drop)]
pub struct Report {
    pub(crate) header: Header,
    pub(crate) ports: Vec<PortTally>,
    pub(crate) lines: BTreeMap<u32, LineTally>,
    pub(crate) loads: Vec<Load>,
}

impl Report {
    ghost use Rattle.std.specs.Prelude.{◌≡◌, ◌∷◌, [], IfOk, OnOk, OnErr};
    ghost use Rattle.std.specs.Io.KnownBytes.{Appends};
    ghost use Rattle.ace_event.specs.Ports.{IsHeader};
    ghost use Rattle.ace_event.specs.declared.header.Header.{Header};
    ghost use Rattle.ace_io.specs.Faults.{HasCause};
    ghost use Rattle.ace_model.specs.Trace.{Trace};
    ghost use Rattle.ace_portck.specs.Stands.{Stands as Tell};
    ghost use Rattle.ace_report.specs.Next.{wanted_line};
    ghost use Rattle.ace_report.specs.Put.{AppendsPart};
    ghost use Rattle.ace_report.specs.Report.{report_text};
    ghost use Rattle.ace_report.specs.Stands.{Stands, IsNext, AddsEntry};

    /// The report of the empty trace.
    ///
    /// # Errors
    ///
    /// `NoMemory` where there is none for the ports.
    pub fn new(alloc: Global, header: Header) -> Result<Report, NoMemory>
        requires { IsHeader header }
        ensures { IfOk result (λ r. Stands r header []) }
    {
        match no_counts(alloc, header.ports) {
            Ok(ports) => Ok(Report {
                header,
                ports,
                lines: BTreeMap::new(alloc),
                loads: Vec::new(alloc),
            }),
            Err(none) => Err(none),
        }
    }

    /// The line of whose memory before the event the report has to be told: that which an AR or AW
    /// names first, or that of a MakeInvalid at its R. The ports are those before the event.
    #[inline(always)]
    pub fn wanted_line(&self, event: &Event, ports: &PortCheck) -> Option<u32>
        ensures { (h : Header) (past : Trace)
            → Tell ports.now (record { header = h; past = past }) → Stands self.now h past
            → result ≡ wanted_line h past event.now }
    {
        wanted_line(&self.lines, event, ports)
    }

    /// Counts the next event of an accepted trace, with the ports before it, its `wanted_line`, and
    /// memory of that line before it.
    ///
    /// # Errors
    ///
    /// `NoMemory` where there is none for a load, or for a line that no transaction has named
    /// before. The report is of no use then.
    #[inline(always)]
    pub fn hear(
        &mut self,
        event: &Event,
        ports: &PortCheck,
        line: Option<u32>,
        memory: Line,
    ) -> Result<(), NoMemory>
        ensures stands { (h : Header) (past : Trace)
            → Tell ports.now (record { header = h; past = past })
            → line ≡ wanted_line h past event.now → Stands self.old h past
            → IsNext h past event.now memory → OnOk result (Stands self.new h (event.now ∷ past)) }
        ensures cause { OnErr result ((h : Header) (past : Trace)
            → line ≡ wanted_line h past event.now → Stands self.old h past
            → AddsEntry h past event.now) }
    {
        count(&mut self.ports, event);
        match hear_load(&mut self.loads, &self.lines, ports.place(), event) {
            Ok(()) => hear_line(&mut self.lines, event, ports, line, memory),
            Err(none) => Err(none),
        }
    }

    /// Puts the text of the report: what each port did, the stores and the value of each line in
    /// order of address, and each load.
    ///
    /// # Errors
    ///
    /// `Failed` where the sink's count of faults rose in this call. What was given is a front of
    /// the text then.
    pub fn put<K: Sink>(&self, sink: &mut K) -> Result<(), Failed>
        ensures whole { (h : Header) (past : Trace) → Stands self.now h past
            → OnOk result (Appends (K.held sink.old) (K.held sink.new) (report_text h past)) }
        ensures part { (h : Header) (past : Trace) → Stands self.now h past
            → OnErr result (AppendsPart (K.held sink.old) (K.held sink.new) (report_text h past)) }
        ensures cause { HasCause (K.faults sink.old) (K.faults sink.new) result }
    {
        put_all(sink, &self.ports, self.lines.iter(), &self.loads)
    }
}
