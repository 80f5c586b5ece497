// A plan that a script can have.
ghost use Rattle.std.specs.Prelude.{◌≡◌, ◌≢◌, ◌↔◌, ◌+◌, ◌-◌, [], length, IsTrue, IfOk};
ghost use Rattle.ace_model.specs.Plans.{IsRightAfter, longer};
ghost use Rattle.ace_script.specs.Grammar.{IsScript};
ghost use Rattle.ace_event.specs.Text.{line_text};
ghost use Rattle.ace_script.specs.Text.{operation_text, operations_text};
ghost use Rattle.ace_script.specs.Written.{SameSettings};

use crate::header::is_text;
use crate::laws::{every_operation_fits, every_policy_fits};
use crate::put::push_operation;
use ace_event::Header;
use ace_io::NoMemory;
use ace_model::{Op, PlanOp, PlanView, PolicyWord};
use ace_writer::TextBuf;
use std::alloc::Global;
use std::marker::Model;

/// A plan that is in the grammar of scripts: the masters of a run do its operations.
#[derive(Drop)]
pub struct Plan {
    view: PlanView,
}

impl Model for Plan {
    ghost use Rattle.ace_model.specs.Plans.{PlanWithRoom};
    ghost use Rattle.ace_script.specs.Grammar.{IsScript};

    ghost Value = { PlanWithRoom };

    ghost view = { λ p. p.view };

    ghost invariant = { λ p. IsScript p.view.plan };
}

impl Plan {
    ghost use Rattle.std.specs.Prelude.{◌≡◌, ◌≢◌, ◌↔◌, ◌≤◌, ◌-◌, [], IsTrue, IfOk};
    ghost use Rattle.ace_event.specs.Ports.{IsHeader};
    ghost use Rattle.ace_model.specs.Plans.{IsRightAfter, longer, most_operations};
    ghost use Rattle.ace_script.specs.Grammar.{IsScript};

    /// The plan that this is, which has to be in the grammar.
    pub(crate) fn of_view(view: PlanView) -> Plan
        requires { IsScript view.plan }
        ensures { result ≡ view }
    {
        Plan { view }
    }

    /// The plan as the engines take it.
    pub fn view(&self) -> &PlanView
        ensures view { result.now ≡ self.now }
        ensures script { IsScript self.now.plan }
    {
        &self.view
    }

    /// How its masters answer snoops.
    pub fn policy(&self) -> PolicyWord
        ensures { result ≡ self.now.plan.policy }
    {
        self.view.policy()
    }

    /// How many operations can be pushed. It is 0 for a plan that was read or generated.
    pub fn room(&self) -> u16
        ensures { result ≡ self.now.room }
    {
        self.view.room()
    }

    /// A plan without operations, with room for so many.
    ///
    /// # Errors
    ///
    /// `NoMemory` where there is none for that many operations.
    #[tactic(auto, using(crate::proofs::OperationReads::header_is_script))]
    pub fn blank(
        alloc: Global,
        header: Header,
        ways: u8,
        policy: PolicyWord,
        room: u16,
    ) -> Result<Plan, NoMemory>
        requires header { IsHeader header }
        requires version { header.version ≡ 1 }
        requires some_way { 1 ≤ ways }
        requires most_ways { ways ≤ 32 }
        requires some_room { 1 ≤ room }
        requires most_room { room ≤ most_operations }
        ensures { IfOk result (λ plan. plan ≡ record {
          plan = record {
            header = header;
            ways = ways;
            policy = policy;
            operations = [];
          };
          room = room;
        }) }
    {
        every_policy_fits(policy);
        match PlanView::with_room(alloc, header, ways, policy, room) {
            Ok(view) => Ok(Plan::of_view(view)),
            Err(NoMemory) => Err(NoMemory),
        }
    }

    /// Puts the operation at the end, where it can stand there, and takes one from the room. It
    /// takes no memory.
    pub fn push(&mut self, port: u8, op: Op)
        requires room { self.old.room ≢ 0 }
        requires right { IsRightAfter self.old.plan.header self.old.plan.operations
            (record { port = port; op = op }) }
        ensures { self.new ≡ record {
          plan = longer self.old.plan
              (record { port = port; op = op });
          room = self.old.room - 1;
        } }
    {
        push_right(&mut self.view, PlanOp { port, op });
    }

    /// The same plan again, with the same room.
    ///
    /// # Errors
    ///
    /// `NoMemory` where there is none for its operations and its room.
    pub fn copy(&self, alloc: Global) -> Result<Plan, NoMemory>
        ensures { IfOk result (λ plan. plan ≡ self.now) }
    {
        let view = self.view();
        match copied(alloc, view) {
            Ok(copy) => Ok(Plan::of_view(copy)),
            Err(NoMemory) => Err(NoMemory),
        }
    }

    /// Whether the plans are equal: in header, ways, policy, operations and room.
    pub fn same(&self, other: &Plan) -> bool
        ensures { IsTrue result ↔ (self.now ≡ other.now) }
    {
        are_same(self.view(), other.view())
    }
}

/// Puts an operation that can stand there at the end of a plan that has room for it.
fn push_right(view: &mut PlanView, o: PlanOp)
    requires script { IsScript view.old.plan }
    requires room { view.old.room ≢ 0 }
    requires right { IsRightAfter view.old.plan.header view.old.plan.operations o }
    ensures value { view.new ≡ record { plan = longer view.old.plan o; room = view.old.room - 1 } }
    ensures script { IsScript view.new.plan }
{
    every_operation_fits(o.op);
    view.push(o);
}

/// The line of an operation.
fn line_of(o: &PlanOp) -> TextBuf
    ensures { result ≡ line_text (operation_text o.now) }
{
    let mut text = TextBuf::empty();
    push_operation(&mut text, o);
    text
}

/// Whether the operations have one line.
fn have_one_line(one: &PlanOp, other: &PlanOp) -> bool
    ensures { IsTrue result ↔ (line_text (operation_text one.now)
        ≡ line_text (operation_text other.now)) }
{
    let text = line_of(one);
    let other_text = line_of(other);
    is_text(text.bytes(), other_text.bytes())
}

/// Whether the operations have one text, line by line.
#[tactic(auto, using(crate::proofs::SamePlans::same_steps))]
fn have_one_text(one: &[PlanOp], other: &[PlanOp]) -> bool
    ensures text { IsTrue result → operations_text one.now ≡ operations_text other.now }
    ensures itself { one.now ≡ other.now → IsTrue result }
{
    if one.len() != other.len() {
        return false;
    }
    for i in 0..one.len() {
        if !have_one_line(&one[i], &other[i]) {
            return false;
        }
    }
    true
}

/// Whether all but the operations is equal.
fn are_same_settings(one: &PlanView, other: &PlanView) -> bool
    ensures { IsTrue result ↔ SameSettings one.now other.now }
{
    one.header() == other.header()
        && one.ways() == other.ways()
        && one.policy() == other.policy()
        && one.room() == other.room()
}

/// Whether the plans are equal: scripts with one text are one plan.
fn are_same(one: &PlanView, other: &PlanView) -> bool
    requires one { IsScript one.now.plan }
    requires other { IsScript other.now.plan }
    ensures { IsTrue result ↔ (one.now ≡ other.now) }
{
    if !are_same_settings(one, other) {
        return false;
    }
    have_one_text(one.operations(), other.operations())
}

/// A plan like this one, without its operations, with room for them and for those that it has room
/// for.
fn cleared(alloc: Global, view: &PlanView) -> Result<PlanView, NoMemory>
    ensures { IfOk result (λ copy. copy ≡ record {
      plan = record {
        header = view.now.plan.header;
        ways = view.now.plan.ways;
        policy = view.now.plan.policy;
        operations = [];
      };
      room = length view.now.plan.operations + view.now.room;
    }) }
{
    let places = view.count() + view.room();
    if places == 0 {
        return Ok(PlanView::new(alloc, view.header(), view.ways(), view.policy()));
    }
    PlanView::with_room(alloc, view.header(), view.ways(), view.policy(), places)
}

/// A plan like this one.
#[tactic(auto, using(crate::proofs::CopiedPlans::copied_steps))]
fn copied(alloc: Global, view: &PlanView) -> Result<PlanView, NoMemory>
    ensures { IfOk result (λ copy. copy ≡ view.now) }
{
    let mut copy = cleared(alloc, view)?;
    for o in view.operations() {
        copy.push(*o);
    }
    Ok(copy)
}
