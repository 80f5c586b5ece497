//! An event of any kind, for those who keep the ports beside the system, and no lines.

ghost use Rattle.std.specs.Prelude.{◌≡◌};
ghost use Rattle.std.specs.Option.{option_copied};
ghost use Rattle.ace_portck.specs.Targets.{line_of};

use crate::SysCheck;
use crate::kinds::{is_dvm_completion, is_message_part};
use ace_codes::{LineState, read_ac};
use ace_event::{Channel, Event};
use ace_model::Transaction;
use ace_model::kinds::{is_barrier_half, is_line};
use ace_portck::{PortCheck, Progress, issued, snooped_line};

/// The line of a line transaction.
#[inline(always)]
fn line_of(x: Option<&Progress>) -> Option<u32>
    ensures { result ≡ line_of (option_copied x.entry) }
{
    match x {
        Some(x) if is_line(&x.transaction) => Some(x.transaction.addr),
        _ => None,
    }
}

impl SysCheck {
    ghost use Rattle.std.specs.Prelude.{ℕ, true, Some, length};
    ghost use Rattle.ace_event.specs.declared.event.Event.{Event};
    ghost use Rattle.ace_event.specs.declared.event.Event.TheVariants.{R, B, Ac, Cr, G};
    ghost use Rattle.ace_model.specs.Transactions.{issued};
    ghost use Rattle.ace_portck.specs.declared.ports.PortCheck.{PortCheck};
    ghost use Rattle.ace_portck.specs.Acknowledges.{acknowledge};
    ghost use Rattle.ace_portck.specs.Targets.{Recording, after};
    ghost use Rattle.ace_sysck.specs.Events.{is_issue};
    ghost use Rattle.ace_sysck.specs.Hearing.{BeginsLine, Hears, MayHear, StandsRoomy};

    /// Takes an event of any kind that breaks no rule, where there is room for all lines that
    /// transactions name. `ports` is what is kept of the ports before it.
    pub fn hear(&mut self, ports: &PortCheck, event: &Event)
        ensures { Hears self.old ports.now event.now self.new }
    {
        match *event {
            Event::Ar { .. } => self.hear_address(ports, event),
            Event::Aw { .. } => self.hear_address(ports, event),
            Event::R { port, id, last, .. } => self.hear_transfer(ports, port, id, last),
            Event::B { port, id, .. } => self.hear_response(ports, port, id),
            Event::Rk { port, st } => self.hear_acknowledge(ports, port, Channel::Read, st),
            Event::Wk { port, st } => self.hear_acknowledge(ports, port, Channel::Write, st),
            Event::Ac { port, snoop, .. } => self.hear_snoop(port, snoop),
            Event::Cr { port, st, .. } => self.hear_answer(ports, port, st),
            Event::G { port, chan, id } => self.hear_granted(ports, port, chan, id),
            Event::L { port, addr, x, .. } => self.load(port, addr, x),
            Event::D { port, x, .. } => self.store(port, x),
            Event::S { port, addr, st } => self.change(port, addr, st),
            Event::W { .. } => {}
            Event::Cd { .. } => {}
            Event::M { .. } => {}
            Event::Op { .. } => {}
            Event::Mem { .. } => {}
        }
    }

    /// Takes an AR or AW.
    #[inline(always)]
    fn hear_address(&mut self, ports: &PortCheck, event: &Event)
        ensures { is_issue event.now ≡ true → Hears self.old ports.now event.now self.new }
    {
        if let Some(x) = issued(ports.place(), event) {
            self.begin_any(&x);
        }
    }

    /// Takes an AR or AW that issues the transaction.
    fn begin_any(&mut self, x: &Transaction)
        ensures { (p : PortCheck) (n : ℕ) (r : Recording) (e : Event)
            → issued (length r.past) e ≡ Some x.now
            → MayHear self.old p r n e → StandsRoomy self.new (after r e) n }
    {
        if is_barrier_half(x) {
            self.begin_barrier(x);
        } else if is_message_part(x) {
            self.begin_message(x);
        } else if is_dvm_completion(x) {
            self.begin_completion(x.port, x.id);
        } else {
            self.begin_line_transaction(x);
        }
    }

    /// The same, where it is a line transaction: what a read moves, a write doesn't.
    #[inline(always)]
    fn begin_line_transaction(&mut self, x: &Transaction)
        ensures { (p : PortCheck) (n : ℕ) (r : Recording) (e : Event) → BeginsLine r.past e x.now
            → MayHear self.old p r n e → StandsRoomy self.new (after r e) n }
    {
        let Transaction { port, chan, id, .. } = *x;
        match chan {
            Channel::Read => self.begin_line_read(port, id),
            Channel::Write => {}
        }
    }

    /// Takes an R: the last one completes its read.
    #[inline(always)]
    fn hear_transfer(&mut self, ports: &PortCheck, port: u8, id: u8, last: bool)
        ensures { (resp word : ℕ) → Hears self.old ports.now (R port id resp last word) self.new }
    {
        if !last {
            return;
        }
        if let Some(x) = ports.outstanding(port, Channel::Read, id) {
            self.complete_transaction(&x.transaction);
        }
    }

    /// Takes a B, which completes its write.
    #[inline(always)]
    fn hear_response(&mut self, ports: &PortCheck, port: u8, id: u8)
        ensures { (resp : ℕ) → Hears self.old ports.now (B port id resp) self.new }
    {
        if let Some(x) = ports.outstanding(port, Channel::Write, id) {
            self.complete_transaction(&x.transaction);
        }
    }

    /// Takes an RK, or a WK for the write channel.
    #[inline(always)]
    fn hear_acknowledge(&mut self, ports: &PortCheck, port: u8, chan: Channel, st: LineState)
        ensures { Hears self.old ports.now (acknowledge chan port st) self.new }
    {
        let line = line_of(ports.acknowledged(port, chan));
        self.acknowledge(port, line, st);
    }

    /// Takes an AC.
    #[inline(always)]
    fn hear_snoop(&mut self, port: u8, snoop: u8)
        ensures { (p : PortCheck) (addr : ℕ) → Hears self.old p (Ac port addr snoop) self.new }
    {
        if let Some(kind) = read_ac(snoop) {
            self.hear_message_snoop(port, kind);
        }
    }

    /// Takes a CR.
    #[inline(always)]
    fn hear_answer(&mut self, ports: &PortCheck, port: u8, st: LineState)
        ensures { (resp : ℕ) → Hears self.old ports.now (Cr port resp st) self.new }
    {
        let Some(snoop) = ports.answered(port) else {
            return;
        };
        if let Some(kind) = read_ac(snoop.snoop) {
            let line = snooped_line(snoop, kind);
            self.hear_snoop_answer(port, kind, line, st);
        }
    }

    /// Takes a G.
    #[inline(always)]
    fn hear_granted(&mut self, ports: &PortCheck, port: u8, chan: Channel, id: u8)
        ensures { Hears self.old ports.now (G port chan id) self.new }
    {
        if let Some(x) = ports.outstanding(port, chan, id) {
            let _room = self.make_lock_room(&x.transaction);
            self.hear_grant(&x.transaction);
        }
    }
}
