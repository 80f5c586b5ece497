//! What the master of an ACE port keeps, but for its policy.

ghost use Rattle.std.specs.Prelude.{◌≡◌, ◌∷◌, [], true, false, IfOk};
ghost use Rattle.ace_model.specs.OrderRules.{retired};
ghost use Rattle.ace_model.specs.Plans.{IsRight, Plan, longer};
ghost use Rattle.ace_model.specs.Trace.{Trace};
ghost use Rattle.ace_model.specs.Transactions.{is_ace};
ghost use Rattle.ace_runs.specs.Operations.{next_operation};
ghost use Rattle.ace_engine.specs.Engines.{IsLegal, Master, is_given_by};
ghost use Rattle.ace_master.specs.AcePort.{AcePortStands};

use crate::port_operations::PortOperations;
use ace_event::Event;
use ace_io::NoMemory;
use ace_master_state::Kept;
use ace_model::{Op, PlanView};
use ace_portck::WriteData;
use std::alloc::Global;

/// What the master of an ACE port keeps, but for its policy. It sends the burst of a write before
/// it issues another, so one unsent burst is all it has.
#[derive(Drop)]
pub struct AcePort {
    pub port: u8,
    pub kept: Kept,
    /// The port's operations, in order.
    pub operations: PortOperations,
    /// The data of the operation for which the write was issued whose burst isn't sent, where it
    /// carries an operation's.
    pub unsent: Option<WriteData>,
}

impl AcePort {
    /// What is kept of the port of a plan and the empty trace. It takes all the memory that it will
    /// need, also for the operations that it can be given.
    ///
    /// # Errors
    ///
    /// `NoMemory` where there is none.
    pub fn new(alloc: Global, plan: &PlanView, port: u8) -> Result<AcePort, NoMemory>
        requires right { IsRight plan.now.plan }
        requires ace { is_ace plan.now.plan.header port ≡ true }
        ensures stands { IfOk result (λ s. AcePortStands s plan.now.plan []) }
        ensures port { IfOk result (λ s. s.port ≡ port) }
    {
        let operations = PortOperations::new(alloc, plan, port)?;
        let kept = Kept::new(alloc, plan, port)?;
        Ok(AcePort {
            port,
            kept,
            operations,
            unsent: None,
        })
    }

    /// How many operations of the port retired.
    pub fn retired(&self) -> u16
        ensures { (plan : Plan) (past : Trace) → AcePortStands self.now plan past
            → result ≡ retired past self.now.port }
    {
        self.kept.port.retired().min(0xffff) as u16
    }

    /// The port's next operation.
    pub fn next(&self) -> Option<Op>
        ensures { (plan : Plan) (past : Trace) → AcePortStands self.now plan past
            → result ≡ next_operation plan past self.now.port }
    {
        self.operations.get(self.kept.port.retired() as usize)
    }

    /// Puts the operation at the end of those of the port. It takes no memory.
    pub fn push(&mut self, op: Op)
        requires { (plan : Plan) × (past : Trace) × AcePortStands self.old plan past
            × IsRight (longer plan (record { port = self.old.port; op = op })) }
        ensures stands { (plan : Plan) (past : Trace) → AcePortStands self.old plan past
            → IsRight (longer plan (record { port = self.old.port; op = op }))
            → AcePortStands self.new (longer plan (record { port = self.old.port; op = op })) past }
        ensures port { self.new.port ≡ self.old.port }
    {
        self.operations.push(op);
    }

    /// Hears the next event of the trace, which is none of the port's master.
    pub fn hear(&mut self, event: &Event)
        ensures stands { (plan : Plan) (past : Trace) → AcePortStands self.old plan past
            → IsLegal plan (event.now ∷ past)
            → is_given_by Master past self.old.port event.now ≡ false
            → AcePortStands self.new plan (event.now ∷ past) }
        ensures port { self.new.port ≡ self.old.port }
    {
        self.kept.hear(event);
    }
}
