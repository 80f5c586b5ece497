//! The master of an ACE-Lite port.

ghost use Rattle.std.specs.Prelude.{◌≡◌, ◌<◌, ◌∷◌, ◌==◌, ◌&&◌, ◌||◌, not, true, false, [], Some, None, is_some, IfOk, IsTrue};
ghost use Rattle.ace_event.specs.declared.event.Outcome.TheVariants.{Ok};
ghost use Rattle.ace_model.specs.declared.plans.Op.{Op};
ghost use Rattle.ace_model.specs.OrderRules.{retired};
ghost use Rattle.ace_model.specs.Plans.{IsRight, Plan, longer};
ghost use Rattle.ace_model.specs.Trace.{Trace, is_none_or, is_some_and};
ghost use Rattle.ace_model.specs.Transactions.{is_ace, is_outstanding};
ghost use Rattle.ace_runs.specs.Closing.{retirement};
ghost use Rattle.ace_runs.specs.Operations.{next_operation};
ghost use Rattle.ace_runs.specs.Retiring.{may_retire};
ghost use Rattle.ace_runs.specs.Steps.{is_enabled_by};
ghost use Rattle.ace_master.specs.declared.lite_requests.LiteRequest.TheVariants.{Read, Write, Barrier};
ghost use Rattle.ace_master.specs.Lite.{IsAsking, IsTurn, LiteStands, is_line_busy, own_steps, port_of};
ghost use Rattle.ace_master.specs.LiteRequests.{lite_request};

use crate::Master;
use crate::issues::{ar_of, aw_of, barrier_ar, barrier_aw, is_no_snoop_write};
use crate::kept_port::{note, put, retirement};
use crate::lite_requests::{LiteRequest, lite_request};
use crate::operations::{beats, data_of};
use crate::port_operations::PortOperations;
use ace_codes::{ArKind, AwKind};
use ace_engine::{Burst, Engine};
use ace_event::{Channel, Event};
use ace_io::NoMemory;
use ace_master_state::Identifiers;
use ace_model::{Op, PlanView, Transaction};
use ace_portck::{OnePort, WriteData, issued};
use std::alloc::Global;

/// The master of an ACE-Lite port. It sends the burst of a write before it issues another, so one
/// unsent burst is all it has.
#[derive(Drop)]
pub struct LiteMaster {
    port: OnePort,
    /// The identifiers of its outstanding transactions.
    identifiers: Identifiers,
    /// The port's operations, in order.
    operations: PortOperations,
    /// What it has issued for its next operation, on each channel.
    read: Option<Transaction>,
    write: Option<Transaction>,
    /// The data of the write whose burst it hasn't sent.
    unsent: Option<WriteData>,
}

impl LiteMaster {
    /// The master of the port for a plan and the empty trace. It takes all the memory that it will
    /// need, also for the operations that it can be given.
    ///
    /// # Errors
    ///
    /// `NoMemory` where there is none.
    pub fn new(alloc: Global, plan: &PlanView, port: u8) -> Result<LiteMaster, NoMemory>
        requires right { IsRight plan.now.plan }
        requires port { port < plan.now.plan.header.ports }
        requires lite { is_ace plan.now.plan.header port ≡ false }
        ensures stands { IfOk result (λ s. LiteStands s plan.now.plan []) }
        ensures port { IfOk result (λ s. port_of s ≡ port) }
    {
        let operations = PortOperations::new(alloc, plan, port)?;
        let Ok(port) = OnePort::new(alloc, plan.header(), port, 0) else {
            return Err(NoMemory);
        };
        Ok(LiteMaster {
            port,
            identifiers: Identifiers::none(),
            operations,
            read: None,
            write: None,
            unsent: None,
        })
    }

    /// Puts the operation at the end of those of the port. It takes no memory.
    pub fn push(&mut self, op: Op)
        requires { (plan : Plan) × (past : Trace) × LiteStands self.old plan past
            × IsRight (longer plan (record { port = port_of self.old; op = op })) }
        ensures stands { (plan : Plan) (past : Trace) → LiteStands self.old plan past
            → IsRight (longer plan (record { port = port_of self.old; op = op }))
            → LiteStands self.new (longer plan (record { port = port_of self.old; op = op })) past }
        ensures port { port_of self.new ≡ port_of self.old }
    {
        self.operations.push(op);
    }

    /// How many operations of the port retired.
    pub fn retired(&self) -> u16
        ensures { (plan : Plan) (past : Trace) → LiteStands self.now plan past
            → result ≡ retired past (port_of self.now) }
    {
        self.port.retired().min(0xffff) as u16
    }

    /// The port's next operation.
    fn next(&self) -> Option<Op>
        ensures { (plan : Plan) (past : Trace) → LiteStands self.now plan past
            → result ≡ next_operation plan past (port_of self.now) }
    {
        self.operations.get(self.port.retired() as usize)
    }

    /// What the port has issued is outstanding.
    fn is_out(&self, issued: Option<Transaction>) -> bool
        ensures { (plan : Plan) (past : Trace) → LiteStands self.now plan past
            → is_none_or issued (λ x. x.port == port_of self.now) ≡ true
            → result ≡ is_some_and issued (is_outstanding plan.header past) }
    {
        let Some(x) = issued else {
            return false;
        };
        match self.port.named(x.chan, x.id) {
            Some(y) => y.transaction.place == x.place,
            None => false,
        }
    }

    /// It has issued something for its next operation.
    fn has_issued(&self) -> bool
        ensures { result ≡ (is_some self.now.read || is_some self.now.write) }
    {
        self.read.is_some() || self.write.is_some()
    }

    /// What it has issued isn't outstanding.
    fn is_done(&self) -> bool
        ensures { (plan : Plan) (past : Trace) → LiteStands self.now plan past
            → result ≡ (not (is_some_and self.now.read (is_outstanding plan.header past))
            && not (is_some_and self.now.write (is_outstanding plan.header past))) }
    {
        !self.is_out(self.read) && !self.is_out(self.write)
    }

    /// A transaction of the port on the line that the operation names is outstanding.
    fn is_line_busy(&self, op: Op) -> bool
        ensures { (plan : Plan) (past : Trace) → LiteStands self.now plan past
            → result ≡ is_line_busy plan.header past (port_of self.now) op }
    {
        match op.line() {
            Some(line) => !self.port.is_line_free(line),
            None => false,
        }
    }

    /// Puts the burst of the write whose burst isn't sent.
    fn send(&mut self, carried: &WriteData, out: &mut Burst)
        requires { out.old ≡ [] }
        ensures turn { (plan : Plan) (past : Trace) → LiteStands self.old plan past
            → self.old.unsent ≡ Some carried.now → IsTurn self.new plan past out.new }
        ensures port { port_of self.new ≡ port_of self.old }
    {
        let burst = beats(self.port.port(), carried);
        put(&mut self.port, &mut self.identifiers, &burst, out);
        self.unsent = None;
    }

    /// The OP of the next operation.
    fn op(&self) -> Event
        ensures { (plan : Plan) (past : Trace) → LiteStands self.now plan past
            → retirement past (port_of self.now) Ok ≡ result ∷ [] }
    {
        retirement(&self.port)
    }

    /// Puts the OP of the next operation, which may retire.
    fn retire(&mut self, out: &mut Burst)
        requires { out.old ≡ [] }
        ensures turn { (plan : Plan) (past : Trace) (op : Op) → LiteStands self.old plan past
            → self.old.unsent ≡ None
            → next_operation plan past (port_of self.old) ≡ Some op
            → may_retire plan.header past (port_of self.old) op Ok ≡ true
            → IsTurn self.new plan past out.new }
        ensures port { port_of self.new ≡ port_of self.old }
    {
        let op = self.op();
        put(&mut self.port, &mut self.identifiers, &[op], out);
        self.read = None;
        self.write = None;
    }

    /// Puts the AR of a read, if an identifier is free and no transaction of the port on the line
    /// is outstanding.
    fn ask_read(&mut self, op: Op, kind: ArKind, addr: u32, out: &mut Burst) -> bool
        requires { out.old ≡ [] }
        ensures turn { IsTrue result → (plan : Plan) (past : Trace)
            → IsAsking self.old plan past op → lite_request op ≡ Some (Read kind addr)
            → IsTurn self.new plan past out.new }
        ensures none { result ≡ false → (plan : Plan) (past : Trace)
            → IsAsking self.old plan past op → lite_request op ≡ Some (Read kind addr)
            → is_enabled_by own_steps plan past (port_of self.old) ≡ false }
        ensures unchanged { result ≡ false → (self.new ≡ self.old) × (out.new ≡ []) }
        ensures port { port_of self.new ≡ port_of self.old }
    {
        let Some(id) = self.identifiers.free_on(Channel::Read) else {
            return false;
        };
        if self.is_line_busy(op) {
            return false;
        }
        let asks = ar_of(self.port.port(), id, kind, addr, false);
        self.read = issued(self.port.count(), &asks);
        put(&mut self.port, &mut self.identifiers, &[asks], out);
        true
    }

    /// Puts the AW of a write, if an identifier is free and no transaction of the port on the line
    /// is outstanding. A write that the operation doesn't wait for retires it.
    fn ask_write(&mut self, op: Op, kind: AwKind, addr: u32, out: &mut Burst) -> bool
        requires { out.old ≡ [] }
        ensures turn { IsTrue result → (plan : Plan) (past : Trace)
            → IsAsking self.old plan past op → lite_request op ≡ Some (Write kind addr)
            → IsTurn self.new plan past out.new }
        ensures none { result ≡ false → (plan : Plan) (past : Trace)
            → IsAsking self.old plan past op → lite_request op ≡ Some (Write kind addr)
            → is_enabled_by own_steps plan past (port_of self.old) ≡ false }
        ensures unchanged { result ≡ false → (self.new ≡ self.old) × (out.new ≡ []) }
        ensures port { port_of self.new ≡ port_of self.old }
    {
        let Some(id) = self.identifiers.free_on(Channel::Write) else {
            return false;
        };
        if self.is_line_busy(op) {
            return false;
        }
        let asks = aw_of(self.port.port(), id, kind, addr);
        let retires = self.op();
        self.unsent = data_of(op);
        if is_no_snoop_write(kind) {
            self.write = issued(self.port.count(), &asks);
            put(&mut self.port, &mut self.identifiers, &[asks], out);
        } else {
            put(&mut self.port, &mut self.identifiers, &[asks, retires], out);
        }
        true
    }

    /// Puts both halves of a barrier, if an identifier is free on both channels.
    fn ask_barrier(&mut self, bar: u8, out: &mut Burst) -> bool
        requires { out.old ≡ [] }
        ensures turn { IsTrue result → (plan : Plan) (past : Trace) (op : Op)
            → IsAsking self.old plan past op → lite_request op ≡ Some (Barrier bar)
            → IsTurn self.new plan past out.new }
        ensures none { result ≡ false → (plan : Plan) (past : Trace) (op : Op)
            → IsAsking self.old plan past op → lite_request op ≡ Some (Barrier bar)
            → is_enabled_by own_steps plan past (port_of self.old) ≡ false }
        ensures unchanged { result ≡ false → (self.new ≡ self.old) × (out.new ≡ []) }
        ensures port { port_of self.new ≡ port_of self.old }
    {
        let Some(id) = self.identifiers.free_on_both() else {
            return false;
        };
        let first = barrier_ar(self.port.port(), id, bar);
        let second = barrier_aw(self.port.port(), id, bar);
        let place = self.port.count();
        self.read = issued(place, &first);
        self.write = issued(place.wrapping_add(1), &second);
        put(&mut self.port, &mut self.identifiers, &[first, second], out);
        true
    }

    /// Puts what the operation asks for, unless it has to wait. Where no identifier is free, no
    /// outstanding transaction is looked at.
    fn ask(&mut self, op: Op, out: &mut Burst) -> bool
        requires { out.old ≡ [] }
        ensures turn { IsTrue result → (plan : Plan) (past : Trace) → IsAsking self.old plan past op
            → IsTurn self.new plan past out.new }
        ensures none { result ≡ false → (plan : Plan) (past : Trace)
            → IsAsking self.old plan past op
            → is_enabled_by own_steps plan past (port_of self.old) ≡ false }
        ensures unchanged { result ≡ false → (self.new ≡ self.old) × (out.new ≡ []) }
        ensures port { port_of self.new ≡ port_of self.old }
    {
        match lite_request(op) {
            Some(LiteRequest::Read { kind, addr }) => self.ask_read(op, kind, addr, out),
            Some(LiteRequest::Write { kind, addr }) => self.ask_write(op, kind, addr, out),
            Some(LiteRequest::Barrier { bar }) => self.ask_barrier(bar, out),
            None => false,
        }
    }

    /// Puts a step of the port, whose burst is sent.
    fn go_on(&mut self, out: &mut Burst) -> bool
        requires { out.old ≡ [] }
        ensures turn { IsTrue result → (plan : Plan) (past : Trace) → LiteStands self.old plan past
            → self.old.unsent ≡ None → IsTurn self.new plan past out.new }
        ensures none { result ≡ false → (plan : Plan) (past : Trace)
            → LiteStands self.old plan past → self.old.unsent ≡ None
            → is_enabled_by own_steps plan past (port_of self.old) ≡ false }
        ensures unchanged { result ≡ false → (self.new ≡ self.old) × (out.new ≡ []) }
        ensures port { port_of self.new ≡ port_of self.old }
    {
        let Some(op) = self.next() else {
            return false;
        };
        if !self.has_issued() {
            return self.ask(op, out);
        }
        if !self.is_done() {
            return false;
        }
        self.retire(out);
        true
    }
}

impl Engine for LiteMaster {
    ghost use Rattle.std.specs.Prelude.{◌==◌};
    ghost use Rattle.ace_engine.specs.Engines.{Master};
    ghost use Rattle.ace_master.specs.Lite.{LiteStands, port_of};
    ghost use Rattle.ace_master.specs.LiteLaws.{grows, legal};

    ghost kind = { Master };

    ghost serves = { λ s p. p == port_of s };

    ghost stands = { LiteStands };

    ghost legal = { legal };

    ghost grows = { grows };

    fn turn(&mut self, _port: u8, out: &mut Burst) -> bool {
        match self.unsent {
            Some(data) => {
                self.send(&data, out);
                true
            }
            None => self.go_on(out),
        }
    }

    fn hear(&mut self, event: &Event) {
        note(&mut self.port, &mut self.identifiers, event);
    }
}

impl Master for LiteMaster {
    fn push(&mut self, op: Op) {
        LiteMaster::push(self, op);
    }
}
