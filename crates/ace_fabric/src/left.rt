//! What is left to do in a run.

ghost use Rattle.std.specs.Prelude.{◌≡◌, ◌≢◌, ◌<◌, ◌∷◌, ◌&&◌, ◌==◌, ℕ, not, [], Some, IfOk, length, slice_get};
ghost use Rattle.ace_event.specs.declared.header.Header.{Header};
ghost use Rattle.ace_event.specs.declared.event.Channel.TheVariants.{Read, Write};
ghost use Rattle.ace_model.specs.declared.plans.Op.{Op};
ghost use Rattle.ace_model.specs.Plans.{IsRight, Plan, longer};
ghost use Rattle.ace_model.specs.Trace.{Trace};
ghost use Rattle.ace_runs.specs.Follows.{is_done, owes_completion};
ghost use Rattle.ace_engine.specs.Engines.{IsLegal};
ghost use Rattle.ace_portck.specs.Pending.{pending_of};
ghost use Rattle.ace_fabric.specs.Left.{CountsStand, LeftStands, counted_port, is_empty, is_port_done, left_after, with_one_more};
ghost use Rattle.ace_runs.specs.Bursts.{onto};
ghost use Rattle.ace_runs.specs.Operations.{operations_of};
ghost use Rattle.ace_runs.specs.Follows.{is_port_at_end};
ghost use Rattle.ace_fabric.specs.declared.left.PortLeft.{PortLeft};

use ace_engine::Burst;
use ace_event::Event;
use ace_io::NoMemory;
use ace_model::{MOST_LINES, MOST_SNOOPS, PlanView};
use ace_portck::PortCheck;
use ace_sysck::SysCheck;
use std::alloc::Global;

/// What is left of a port.
#[derive(Clone, Copy, Debug, PartialEq, Eq)]
pub struct PortLeft {
    /// How many of its operations haven't retired.
    pub operations: u16,
    /// How many of its snoops it hasn't answered.
    pub snoops: u16,
}

/// What is left to do in a run: of each port, its operations, snoops and transactions, and the DVM
/// Completes that it owes.
#[derive(Drop)]
pub struct Left {
    ports: PortCheck,
    system: SysCheck,
    counts: Vec<PortLeft>,
}

/// What is left of a port after an event of it.
fn left_after(kept: PortLeft, event: &Event) -> PortLeft
    ensures { result ≡ left_after event.now kept }
{
    let operations = kept.operations;
    let snoops = kept.snoops;
    match *event {
        Event::Op { .. } => PortLeft {
            operations: operations.saturating_sub(1),
            snoops,
        },
        Event::Ac { .. } => PortLeft {
            operations,
            snoops: snoops.saturating_add(1),
        },
        Event::Cr { .. } => PortLeft {
            operations,
            snoops: snoops.saturating_sub(1),
        },
        _ => kept,
    }
}

/// The event of the port is counted, where there is such a port.
fn count_at(counts: &mut [PortLeft], port: u8, event: &Event)
    ensures own { (x : PortLeft) → slice_get counts.old port ≡ Some x
        → slice_get counts.new port ≡ Some (left_after event.now x) }
    ensures others { (k : ℕ) → k ≢ port → slice_get counts.new k ≡ slice_get counts.old k }
{
    let own = usize::from(port);
    if own < counts.len() {
        counts[own] = left_after(counts[own], event);
    }
}

/// What is left of a port that has one more operation.
fn with_one_more(kept: PortLeft) -> PortLeft
    ensures { result ≡ with_one_more kept }
{
    PortLeft {
        operations: kept.operations.saturating_add(1),
        snoops: kept.snoops,
    }
}

/// One more operation of the port is counted, where there is such a port.
fn count_one_more(counts: &mut [PortLeft], port: u8)
    ensures own { (x : PortLeft) → slice_get counts.old port ≡ Some x
        → slice_get counts.new port ≡ Some (with_one_more x) }
    ensures others { (k : ℕ) → k ≢ port → slice_get counts.new k ≡ slice_get counts.old k }
{
    let own = usize::from(port);
    if own < counts.len() {
        counts[own] = with_one_more(counts[own]);
    }
}

/// The port of whose operations and snoops something is counted at the event.
fn counted_port(event: &Event) -> Option<u8>
    ensures { result ≡ counted_port event.now }
{
    match *event {
        Event::Op { port, .. } | Event::Ac { port, .. } | Event::Cr { port, .. } => Some(port),
        _ => None,
    }
}

/// The next event of the trace is counted.
fn note(counts: &mut [PortLeft], event: &Event)
    ensures { (plan : Plan) (past : Trace) → CountsStand plan past counts.old
        → IsLegal plan (event.now ∷ past) → CountsStand plan (event.now ∷ past) counts.new }
{
    if let Some(port) = counted_port(event) {
        count_at(counts, port, event);
    }
}

/// How many operations of the plan are the port's.
fn operations_at(plan: &PlanView, port: u8) -> u16
    ensures { result ≡ length (operations_of plan.now.plan port) }
{
    let mut count = 0;
    for i in 0..plan.count() {
        if plan.get(i).port == port {
            count += 1;
        }
    }
    count
}

/// What is left of each port before the run begins.
fn all_left(alloc: Global, plan: &PlanView) -> Result<Vec<PortLeft>, NoMemory>
    ensures count { IfOk result (λ v. length v.items ≡ plan.now.plan.header.ports) }
    ensures stand { IfOk result (λ v. CountsStand plan.now.plan [] v.items) }
{
    let mut counts = Vec::new(alloc);
    for port in 0..plan.header().ports {
        let left = PortLeft {
            operations: operations_at(plan, port),
            snoops: 0,
        };
        if counts.push(left).is_err() {
            return Err(NoMemory);
        }
    }
    Ok(counts)
}

/// What is left of the port.
fn kept_at(counts: &[PortLeft], port: u8) -> PortLeft
    requires { port < length counts.now }
    ensures { slice_get counts.now port ≡ Some result }
{
    counts[usize::from(port)]
}

/// The operations of the port have retired, it has answered its snoops, and owes nothing.
fn is_at_end(kept: PortLeft, owes: bool) -> bool
    ensures { result ≡ ((kept.operations == 0) && (kept.snoops == 0) && not owes) }
{
    kept.operations == 0 && kept.snoops == 0 && !owes
}

/// Nothing is left, and none of so many reads and writes.
fn is_done_with(at_end: bool, reads: usize, writes: usize) -> bool
    ensures { result ≡ (at_end && ((reads == 0) && (writes == 0))) }
{
    at_end && reads == 0 && writes == 0
}

impl Left {
    /// What is left of a plan before its run begins.
    ///
    /// # Errors
    ///
    /// `NoMemory` where there is none for it.
    pub fn new(alloc: Global, plan: &PlanView) -> Result<Left, NoMemory>
        requires { IsRight plan.now.plan }
        ensures { IfOk result (λ s. LeftStands s plan.now.plan []) }
    {
        let Ok(ports) = PortCheck::with_room(alloc, plan.header(), MOST_SNOOPS) else {
            return Err(NoMemory);
        };
        let Ok(system) = SysCheck::with_room(alloc, plan.header(), MOST_LINES) else {
            return Err(NoMemory);
        };
        let counts = all_left(alloc, plan)?;
        Ok(Left {
            ports,
            system,
            counts,
        })
    }

    /// Hears the next event of the trace. It takes no memory.
    pub fn hear(&mut self, event: &Event)
        ensures { (plan : Plan) (past : Trace) → LeftStands self.old plan past
            → IsLegal plan (event.now ∷ past) → LeftStands self.new plan (event.now ∷ past) }
    {
        self.system.hear(&self.ports, event);
        self.ports.hear(event);
        note(self.counts.as_mut_slice(), event);
    }

    /// The port owes a DVM Complete.
    fn owes(&self, port: u8) -> bool
        ensures { (plan : Plan) (past : Trace) → LeftStands self.now plan past
            → port < plan.header.ports → result ≡ owes_completion past port }
    {
        self.system.rule_of_completion_ar(port, 0).is_none()
    }

    /// Nothing is left of the port, nor any transaction of it outstanding.
    fn is_port_done(&self, port: u8) -> bool
        requires { port < length self.now.counts.items }
        ensures { (plan : Plan) (past : Trace) → LeftStands self.now plan past
            → result ≡ is_port_done plan past port }
    {
        let kept = kept_at(self.counts.as_slice(), port);
        let at_end = is_at_end(kept, self.owes(port));
        let reads = self.ports.reads(port).len();
        let writes = self.ports.writes(port).len();
        is_done_with(at_end, reads, writes)
    }

    /// Nothing is left of the ports, of which there are so many: the run is done.
    pub fn is_none(&self, ports: u8) -> bool
        requires { ports ≡ length self.now.counts.items }
        ensures { (plan : Plan) (past : Trace) → LeftStands self.now plan past
            → result ≡ is_done plan past }
    {
        for port in 0..ports {
            if !self.is_port_done(port) {
                return false;
            }
        }
        true
    }

    /// One more operation of the port, at the end of the plan, hasn't retired. It takes no memory.
    pub fn push(&mut self, port: u8)
        ensures { (plan : Plan) (past : Trace) (op : Op) → LeftStands self.old plan past
            → IsRight (longer plan (record { port = port; op = op }))
            → LeftStands self.new (longer plan (record { port = port; op = op })) past }
    {
        count_one_more(self.counts.as_mut_slice(), port);
    }

    /// Hears the events of the burst, which come next.
    pub fn hear_all(&mut self, burst: &Burst)
        ensures { (plan : Plan) (past : Trace) → LeftStands self.old plan past
            → IsLegal plan (onto burst.now past) → LeftStands self.new plan (onto burst.now past) }
    {
        for i in 0..burst.len() {
            self.hear(&burst.get(i));
        }
    }
}
