//! The steps of the master of an ACE port.

ghost use Rattle.std.specs.Prelude.{◌≡◌, ◌∷◌, ℕ, Bool, [], true, false, Some, None, IsTrue};
ghost use Rattle.ace_codes.specs.declared.kind.SnoopKind.{SnoopKind};
ghost use Rattle.ace_codes.specs.declared.state.LineState.{LineState};
ghost use Rattle.ace_model.specs.Plans.{Plan};
ghost use Rattle.ace_model.specs.Trace.{Trace};
ghost use Rattle.ace_runs.specs.Closing.{and_closing, closing_of, state_named};
ghost use Rattle.ace_runs.specs.MasterSteps.{completion_bursts, may_answer_snoop, may_send};
ghost use Rattle.ace_runs.specs.Requests.{bursts_of, moves_of, request_of};
ghost use Rattle.ace_runs.specs.Steps.{is_step_by};
ghost use Rattle.ace_master.specs.declared.asking.Asking.{Asking};
ghost use Rattle.ace_master.specs.Asking.{IsOneOf, events_of};
ghost use Rattle.ace_master.specs.Lite.{own_steps};
ghost use Rattle.ace_master.specs.AcePort.{AcePortStands, IsAceTurn, IsGoingOn};
ghost use Rattle.ace_master.specs.Answering.{IsByWord};

use crate::ace_port::AcePort;
use crate::asking::Asking;
use crate::bursts::{burst_for, completion_burst};
use crate::kept_burst::hear_all;
use crate::{answering, sending};
use ace_engine::Burst;
use ace_master_state::Closing;
use ace_model::Op;
use ace_policy::Policy;

impl AcePort {
    /// Answers the port's oldest unanswered snoop, if there is a row for it.
    pub fn answer<P: Policy>(&mut self, policy: &mut P, out: &mut Burst) -> bool
        requires { out.old ≡ [] }
        ensures turn { IsTrue result → (plan : Plan) (past : Trace)
            → AcePortStands self.old plan past → IsByWord plan.policy (P.rows policy.old)
            → IsAceTurn self.new plan past out.new }
        ensures none { result ≡ false → (plan : Plan) (past : Trace)
            → AcePortStands self.old plan past
            → may_answer_snoop plan.header past self.old.port ≡ false }
        ensures same_rows { (k : SnoopKind) (st : LineState) (u : Bool)
            → P.rows policy.new k st u ≡ P.rows policy.old k st u }
        ensures unchanged { result ≡ false
            → (self.new ≡ self.old) × (policy.new ≡ policy.old) × (out.new ≡ []) }
        ensures port { self.new.port ≡ self.old.port }
    {
        if !answering::answer(&self.kept.port, &self.kept.lines, policy, out) {
            return false;
        }
        hear_all(&mut self.kept, out);
        true
    }

    /// Sends the data of the write whose burst isn't sent, if there is one.
    pub fn send(&mut self, out: &mut Burst) -> bool
        requires { out.old ≡ [] }
        ensures turn { IsTrue result → (plan : Plan) (past : Trace)
            → AcePortStands self.old plan past → IsAceTurn self.new plan past out.new }
        ensures none { result ≡ false → (plan : Plan) (past : Trace)
            → AcePortStands self.old plan past → may_send plan.header past self.old.port ≡ false }
        ensures unchanged { result ≡ false → (self.new ≡ self.old) × (out.new ≡ []) }
        ensures port { self.new.port ≡ self.old.port }
    {
        if !sending::send(&self.kept.port, &self.kept.lines, self.unsent, out) {
            return false;
        }
        hear_all(&mut self.kept, out);
        true
    }

    /// Issues a DVM Complete that the port owes, if an identifier is free.
    pub fn complete(&mut self, out: &mut Burst) -> bool
        requires { out.old ≡ [] }
        ensures turn { IsTrue result → (plan : Plan) (past : Trace)
            → AcePortStands self.old plan past → IsAceTurn self.new plan past out.new }
        ensures none { result ≡ false → (plan : Plan) (past : Trace)
            → AcePortStands self.old plan past
            → completion_bursts plan.header past self.old.port ≡ [] }
        ensures unchanged { result ≡ false → (self.new ≡ self.old) × (out.new ≡ []) }
        ensures port { self.new.port ≡ self.old.port }
    {
        let Some(asking) = completion_burst(
            &self.kept.port,
            &self.kept.identifiers,
            &self.kept.completions,
        ) else {
            return false;
        };
        asking.put(out);
        hear_all(&mut self.kept, out);
        true
    }

    /// Ends the port's next operation, which doesn't wait, if it can end without asking for
    /// anything.
    pub fn end(&mut self, op: Op, out: &mut Burst) -> bool
        requires { out.old ≡ [] }
        ensures turn { IsTrue result → (plan : Plan) (past : Trace)
            → IsGoingOn self.old plan past op → IsAceTurn self.new plan past out.new }
        ensures none { result ≡ false → (plan : Plan) (past : Trace)
            → IsGoingOn self.old plan past op → closing_of plan.header past self.old.port op ≡ [] }
        ensures unchanged { result ≡ false → (self.new ≡ self.old) × (out.new ≡ []) }
        ensures port { self.new.port ≡ self.old.port }
    {
        match self.kept.closing_of(op, false) {
            Closing::Nothing => return false,
            Closing::Retires(retires) => out.push(retires),
            Closing::Accesses(access, retires) => {
                out.push(access);
                out.push(retires);
            }
        }
        hear_all(&mut self.kept, out);
        true
    }

    /// What the port asks for by its next operation, which doesn't wait and can't end without it,
    /// if it can ask.
    pub fn asking_for(&self, op: Op) -> Option<Asking>
        ensures step { (plan : Plan) (past : Trace) (asking : Asking)
            → IsGoingOn self.now plan past op → closing_of plan.header past self.now.port op ≡ []
            → result ≡ Some asking
            → is_step_by own_steps plan past self.now.port
            (and_closing plan.header past self.now.port op (events_of asking)) ≡ true }
        ensures none { (plan : Plan) (past : Trace) → IsGoingOn self.now plan past op
            → closing_of plan.header past self.now.port op ≡ [] → result ≡ None
            → moves_of plan.ways plan.header past self.now.port op ≡ [] }
        ensures asks { (plan : Plan) (past : Trace) → AcePortStands self.now plan past
            → IsOneOf result (bursts_of plan.ways plan.header past self.now.port
            (request_of op (state_named plan.header past self.now.port op))) }
    {
        burst_for(
            &self.kept.port,
            &self.kept.identifiers,
            &self.kept.lines,
            op,
        )
    }
}
