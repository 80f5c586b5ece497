//! What hears the events of an accepted trace, for an account of it.

ghost use Rattle.std.specs.Prelude.{◌≡◌, ◌<◌, ◌∷◌, ℕ, [], Some, length, IfOk, OnOk};
ghost use Rattle.ace_event.specs.Ports.{IsHeader};
ghost use Rattle.ace_event.specs.declared.header.Header.{Header};
ghost use Rattle.ace_model.specs.Accepted.{IsAccepted};
ghost use Rattle.ace_model.specs.Trace.{Trace};
ghost use Rattle.ace_portck.specs.Stands.{Stands as Tell};
ghost use Rattle.ace_model.specs.Copies.{memory_of};
ghost use Rattle.ace_report.specs.Stands as reporting;
ghost use Rattle.ace_account.specs.Accounts.{HasPut, HasPutCause};
ghost use Rattle.ace_account.specs.Listeners.{IsOrdered, Stands, account_of, wanted_line};
ghost use Rattle.ace_account.specs.declared.listener.Account.TheVariants as account;

use crate::put::put_cert;
use ace_cert_make::Maker;
use ace_event::laws::every_event_fits;
use ace_event::{Event, Header, Line};
use ace_io::{NoMemory, Sink};
use ace_portck::PortCheck;
use ace_report::Report;
use std::alloc::Global;

/// What is told of an accepted trace.
#[derive(Clone, Copy, Debug, PartialEq, Eq)]
pub enum Account {
    /// What each port did, the stores and the value of each line, and the place of each load.
    Report,
    /// The stores of each line in their order, and a place for each read.
    Order,
}

/// Why an account wasn't put.
#[derive(Clone, Copy, Debug, PartialEq, Eq)]
pub enum AccountErr {
    /// There was no memory for it, so nothing was put.
    NoMemory,
    /// The sink failed, behind a front of it.
    Failed,
}

/// What hears the events of an accepted trace, for an account of it.
#[derive(Drop)]
pub enum Listener {
    Report { report: Report },
    Order { maker: Maker },
}

/// Puts a report of which there is no more use.
fn put_report<K: Sink>(report: Report, sink: &mut K) -> Result<(), AccountErr>
    ensures put { (h : Header) (past : Trace) → reporting.Stands report h past
        → HasPut account.Report h past (K.held sink.old) (K.held sink.new) result }
    ensures cause { HasPutCause (K.faults sink.old) (K.faults sink.new) result }
{
    match report.put(sink) {
        Ok(()) => Ok(()),
        Err(_) => Err(AccountErr::Failed),
    }
}

/// Hears the next event for a certificate, with the ports before it. It takes a copy, so that the
/// caller keeps the event's fields where they are.
#[inline(never)]
fn hear_order(maker: &mut Maker, event: Event, ports: &PortCheck) -> Result<(), NoMemory>
    ensures { (h : Header) (past : Trace) → Tell ports.now (record { header = h; past = past })
        → IsOrdered maker.old h past → IsAccepted h (event ∷ past) → length past < 1048576
        → OnOk result (IsOrdered maker.new h (event ∷ past)) }
{
    every_event_fits(event);
    maker.hear(&event, ports)
}

/// Puts the certificate of the trace that a maker heard, of which there is no more use.
fn put_order<K: Sink>(maker: Maker, sink: &mut K) -> Result<(), AccountErr>
    ensures put { (h : Header) (past : Trace) → IsOrdered maker h past
        → HasPut account.Order h past (K.held sink.old) (K.held sink.new) result }
    ensures cause { HasPutCause (K.faults sink.old) (K.faults sink.new) result }
{
    let Ok(cert) = maker.finish() else {
        return Err(AccountErr::NoMemory);
    };
    let put = put_cert(sink, &cert);
    drop(cert);
    match put {
        Ok(()) => Ok(()),
        Err(_) => Err(AccountErr::Failed),
    }
}

impl Listener {
    /// What is to hear a trace under this header, for such an account.
    ///
    /// # Errors
    ///
    /// `NoMemory` where there is none for the ports.
    pub fn new(alloc: Global, header: Header, account: Account) -> Result<Listener, NoMemory>
        requires { IsHeader header }
        ensures stands { IfOk result (λ l. Stands l header []) }
        ensures account { IfOk result (λ l. account_of l ≡ account) }
    {
        match account {
            Account::Report => match Report::new(alloc, header) {
                Ok(report) => Ok(Listener::Report { report }),
                Err(none) => Err(none),
            },
            Account::Order => Ok(Listener::Order {
                maker: Maker::new(alloc),
            }),
        }
    }

    /// The line of whose memory before the event it has to be told, if there is one. The ports are
    /// those before the event.
    #[inline(always)]
    pub fn wanted_line(&self, event: &Event, ports: &PortCheck) -> Option<u32>
        ensures { (h : Header) (past : Trace)
            → Tell ports.now (record { header = h; past = past }) → Stands self.now h past
            → result ≡ wanted_line self.now h past event.now }
    {
        match self {
            Listener::Report { report } => report.wanted_line(event, ports),
            Listener::Order { .. } => None,
        }
    }

    /// Hears the next event of an accepted trace, with the ports before it, its `wanted_line`, and
    /// memory of that line before it.
    ///
    /// # Errors
    ///
    /// `NoMemory` where there is none for what is kept of the event. There is no more use of what
    /// hears then.
    #[inline(always)]
    pub fn hear(
        &mut self,
        event: &Event,
        ports: &PortCheck,
        line: Option<u32>,
        memory: Line,
    ) -> Result<(), NoMemory>
        ensures stands { (h : Header) (past : Trace)
            → Tell ports.now (record { header = h; past = past })
            → line ≡ wanted_line self.old h past event.now
            → ((l : ℕ) → line ≡ Some l → memory ≡ memory_of past l) → Stands self.old h past
            → IsAccepted h (event.now ∷ past) → length past < 1048576
            → OnOk result (Stands self.new h (event.now ∷ past)) }
        ensures account { account_of self.new ≡ account_of self.old }
    {
        match self {
            Listener::Report { report } => report.hear(event, ports, line, memory),
            Listener::Order { maker } => hear_order(maker, *event, ports),
        }
    }

    /// Puts the account of the trace that was heard.
    ///
    /// # Errors
    ///
    /// `NoMemory` where there is none for it, and then nothing was put; `Failed` where the sink's
    /// count of faults rose in this call, and then a front of it was.
    pub fn put<K: Sink>(self, sink: &mut K) -> Result<(), AccountErr>
        ensures put { (h : Header) (past : Trace) → Stands self h past
            → HasPut (account_of self) h past (K.held sink.old) (K.held sink.new) result }
        ensures cause { HasPutCause (K.faults sink.old) (K.faults sink.new) result }
    {
        match self {
            Listener::Report { report } => put_report(report, sink),
            Listener::Order { maker } => put_order(maker, sink),
        }
    }
}
