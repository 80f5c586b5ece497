//! Laws of runs. These functions do no work: what they promise is the law.

ghost use Rattle.std.specs.Prelude.{◌≡◌, ◌↔◌, ◌≤◌, ◌<◌, ◌*◌, ◌⊎◌, ◌&&◌, ◌||◌, ℕ, true, false, List, [], ◌∷◌, Some, None, is_some, length};
ghost use Rattle.std.specs.List.{AllByRecursion, list_any};
ghost use Rattle.ace_event.specs.declared.event.Channel.{Channel};
ghost use Rattle.ace_event.specs.declared.event.Channel.TheVariants.{Read, Write};
ghost use Rattle.ace_event.specs.declared.event.Event.{Event};
ghost use Rattle.ace_event.specs.declared.header.Header.{Header};
ghost use Rattle.ace_model.specs.declared.plans.PlanOp.{PlanOp};
ghost use Rattle.ace_model.specs.declared.snoops.Snoop.{Snoop};
ghost use Rattle.ace_model.specs.declared.transactions.Transaction.{Transaction};
ghost use Rattle.ace_model.specs.Accepted.{IsAccepted};
ghost use Rattle.ace_model.specs.Grants.{is_granted, ports_below};
ghost use Rattle.ace_model.specs.Lines.{known_lines};
ghost use Rattle.ace_model.specs.Progress.{evicts, has_update, updates_memory};
ghost use Rattle.ace_model.specs.Snoops.{answered, snoops_a_line, snoops_of};
ghost use Rattle.ace_model.specs.Trace.{Trace, port_of};
ghost use Rattle.ace_model.specs.Transactions.{is_complete, is_outstanding, outstanding, some_issued};
ghost use Rattle.ace_model.specs.Plans.{Plan, IsRight};
ghost use Rattle.ace_runs.specs.Operations.{with_more};
ghost use Rattle.ace_runs.specs.Ranges.{IsWritable};
ghost use Rattle.ace_runs.specs.Follows.{Done, FollowsSoFar, follows_so_far, is_done, owes_completion};
ghost use Rattle.ace_runs.specs.LineSteps.{waits};
ghost use Rattle.ace_runs.specs.Lean.{IsLean, is_lean};
ghost use Rattle.ace_runs.specs.Acts.{is_act};
ghost use Rattle.ace_runs.specs.Counts.{
  ace_ports,
  acknowledges_read,
  acknowledges_write,
  counted,
  forwards_part,
  is_answer,
  is_grant,
  is_response,
  is_retirement,
  is_silent,
  is_snoop,
  is_snoop_beat,
  is_transfer,
  is_write_beat,
  issues,
  issues_completion,
  issues_for_operation,
  issues_granted,
  issues_on,
  issues_part,
  says_complete,
  snoops_line,
  writes_memory,
};
ghost use Rattle.ace_runs.specs.Bursts.{onto};
ghost use Rattle.ace_runs.specs.Steps.{Enabled, IsStep, AreSteps, is_enabled_by};

/// The tests of following and of leanness say what they are named for.
pub fn tests_are_exact()
    ensures follows { (plan : Plan) (past : Trace)
        → FollowsSoFar plan past ↔ (follows_so_far plan past ≡ true) }
    ensures lean { (plan : Plan) (past : Trace) → IsLean plan past ↔ (is_lean plan past ≡ true) }
{}

/// A trace that is accepted, follows its plan so far or is lean was so at each of its points.
pub fn so_at_each_point()
    ensures accepted { (h : Header) (burst : List Event) (past : Trace)
        → IsAccepted h (onto burst past) → IsAccepted h past }
    ensures follows { (plan : Plan) (burst : List Event) (past : Trace)
        → FollowsSoFar plan (onto burst past) → FollowsSoFar plan past }
    ensures lean { (plan : Plan) (burst : List Event) (past : Trace)
        → IsLean plan (onto burst past) → IsLean plan past }
{}

/// A step of a plan is a step of that plan with more operations at its end, and a port that is
/// enabled stays so.
pub fn step_of_a_longer_plan()
    ensures step { (plan : Plan) (more : List PlanOp) (past : Trace) (p : ℕ) (burst : List Event)
        → IsStep plan past p burst → IsStep (with_more plan more) past p burst }
    ensures enabled { (plan : Plan) (more : List PlanOp) (past : Trace) (p : ℕ)
        → Enabled plan past p → Enabled (with_more plan more) past p }
{}

/// A port for which there is a step is enabled.
pub fn step_is_enabled()
    ensures { (plan : Plan) (past : Trace) (p : ℕ) (burst : List Event)
        → IsStep plan past p burst → Enabled plan past p }
{}

/// A list of steps goes on with a step.
pub fn steps_go_on()
    ensures { (plan : Plan) (past : Trace) (p : ℕ) (burst : List Event)
        → AreSteps plan past → IsStep plan past p burst → AreSteps plan (onto burst past) }
{}

/// A trace that is a list of steps is accepted.
pub fn steps_are_accepted()
    ensures { (plan : Plan) (past : Trace) → AreSteps plan past → IsAccepted plan.header past }
{}

/// A lean trace that follows its plan so far issues, beside DVM Completes, at most three
/// transactions for each operation of the plan, and makes at most two silent transitions.
pub fn few_events_for_each_operation()
    ensures transactions { (plan : Plan) (past : Trace) → FollowsSoFar plan past → IsLean plan past
        → counted issues_for_operation past ≤ length plan.operations * 3 }
    ensures silent { (plan : Plan) (past : Trace) → FollowsSoFar plan past → IsLean plan past
        → counted is_silent past ≤ length plan.operations * 2 }
{}

/// A trace that follows its plan so far has at most two acts for each operation of the plan, and at
/// most one OP.
pub fn few_acts_for_each_operation()
    ensures acts { (plan : Plan) (past : Trace) → FollowsSoFar plan past
        → counted is_act past ≤ length plan.operations * 2 }
    ensures retirements { (plan : Plan) (past : Trace) → FollowsSoFar plan past
        → counted is_retirement past ≤ length plan.operations }
{}

/// What an accepted trace has for its transactions: at most one grant for each that is granted its
/// line and one write of memory for each; four transfers and one acknowledge for each read; four
/// beats of data, one response and one acknowledge for each write.
pub fn few_events_for_each_transaction()
    ensures grants { (h : Header) (past : Trace) → IsAccepted h past
        → counted is_grant past ≤ counted issues_granted past }
    ensures memory_writes { (h : Header) (past : Trace) → IsAccepted h past
        → counted writes_memory past ≤ counted issues past }
    ensures transfers { (h : Header) (past : Trace) → IsAccepted h past
        → counted is_transfer past ≤ counted (issues_on Read) past * 4 }
    ensures read_acknowledges { (h : Header) (past : Trace) → IsAccepted h past
        → counted acknowledges_read past ≤ counted (issues_on Read) past }
    ensures write_beats { (h : Header) (past : Trace) → IsAccepted h past
        → counted is_write_beat past ≤ counted (issues_on Write) past * 4 }
    ensures responses { (h : Header) (past : Trace) → IsAccepted h past
        → counted is_response past ≤ counted (issues_on Write) past }
    ensures write_acknowledges { (h : Header) (past : Trace) → IsAccepted h past
        → counted acknowledges_write past ≤ counted (issues_on Write) past }
{}

/// What the interconnect asks of ACE ports in an accepted trace. Each is snooped at most once for
/// each grant, is sent each part of a DVM message at most once, and issues at most one DVM Complete
/// for each part. A Sync is completed at most once. A snoop has at most one answer, and an answer
/// at most four beats of data.
pub fn few_snoops_for_each_transaction()
    ensures lines { (h : Header) (past : Trace) → IsAccepted h past
        → counted snoops_line past ≤ length (ace_ports h) * counted is_grant past }
    ensures parts { (h : Header) (past : Trace) → IsAccepted h past
        → counted forwards_part past ≤ length (ace_ports h) * counted issues_part past }
    ensures completions { (h : Header) (past : Trace) → IsAccepted h past
        → counted issues_completion past ≤ length (ace_ports h) * counted issues_part past }
    ensures syncs { (h : Header) (past : Trace) → IsAccepted h past
        → counted says_complete past ≤ counted issues_part past }
    ensures answers { (h : Header) (past : Trace) → IsAccepted h past
        → counted is_answer past ≤ counted is_snoop past }
    ensures snoop_beats { (h : Header) (past : Trace) → IsAccepted h past
        → counted is_snoop_beat past ≤ counted is_answer past * 4 }
{}

/// A trace that is accepted, follows its plan so far and is lean snoops each port at most six times
/// for each operation of the plan.
pub fn few_snoops_of_each_port()
    ensures { (plan : Plan) (past : Trace) (p : ℕ) → IsAccepted plan.header past
        → FollowsSoFar plan past → IsLean plan past
        → length (snoops_of past p) ≤ length plan.operations * 6 }
{}

/// A lean trace names at most as many lines as its plan has operations.
pub fn few_lines_of_a_plan()
    ensures { (plan : Plan) (past : Trace) → IsLean plan past
        → length (known_lines past) ≤ length plan.operations }
{}

/// In an accepted trace of a right plan each event names a port: none is a MEM.
pub fn each_event_names_a_port()
    ensures { (plan : Plan) (past : Trace) (e : Event) → IsRight plan
        → IsAccepted plan.header (e ∷ past) → is_some (port_of e) ≡ true }
{}

/// A trace that is accepted, follows a right plan so far and is lean has at most 256 events for
/// each operation of the plan.
pub fn length_is_bounded()
    ensures { (plan : Plan) (past : Trace) → IsRight plan → IsAccepted plan.header past
        → FollowsSoFar plan past → IsLean plan past
        → length past ≤ length plan.operations * 256 }
{}

/// Each event of a run that follows a right plan so far can be written in the version of the plan's
/// header: its port, identifier, codes, response and number have the digits of their fields, where
/// its address, word, strobe and line have the widths of their types.
pub fn each_event_is_in_range()
    ensures { (plan : Plan) (past : Trace) → IsRight plan → AreSteps plan past
        → FollowsSoFar plan past
        → AllByRecursion (IsWritable plan.header.version) past }
{}

/// In a run where an AC is unanswered, its port is enabled by step 1; or the oldest unanswered
/// snoop of the port is of a line on which a memory update of the port is outstanding, and the port
/// is enabled by step 2, 3, 4 or 7.
pub fn unanswered_snoop_has_a_step()
    ensures { (plan : Plan) (past : Trace) (p : ℕ) (s : Snoop) → AreSteps plan past
        → answered past p ≡ Some s
        → (is_enabled_by (1 ∷ []) plan past p ≡ true)
        ⊎ ((snoops_a_line s.snoop ≡ true) × (has_update plan.header past p s.addr ≡ true)
        × (is_enabled_by (2 ∷ 3 ∷ 4 ∷ 7 ∷ []) plan past p ≡ true)) }
{}

/// In a run where no AC is unanswered and a transaction is outstanding that is complete, a memory
/// update, an Evict or granted, a port of the header is enabled by one of the steps 2 to 4 and 6 to
/// 9.
pub fn transaction_has_a_step()
    ensures { (plan : Plan) (past : Trace) (p : ℕ) (c : Channel) (i : ℕ) (x : Transaction)
        → AreSteps plan past
        → ((q : ℕ) → q < plan.header.ports → answered past q ≡ None)
        → outstanding plan.header past p c i ≡ Some x
        → (is_complete past p c i || updates_memory x || evicts x || is_granted plan.header past x)
        ≡ true
        → (q : ℕ) × (q < plan.header.ports)
        × (is_enabled_by (2 ∷ 3 ∷ 4 ∷ 6 ∷ 7 ∷ 8 ∷ 9 ∷ []) plan past q ≡ true) }
{}

/// In a run that follows its plan so far, where no transaction is granted its line and some
/// transaction waits for its grant, a port is enabled by step 5. No barrier holds such a
/// transaction back.
pub fn waiting_transaction_has_a_step()
    ensures { (plan : Plan) (past : Trace) → AreSteps plan past → FollowsSoFar plan past
        → some_issued past (is_granted plan.header past) ≡ false
        → some_issued past (waits plan.header past) ≡ true
        → (p : ℕ) × (p < plan.header.ports) × (is_enabled_by (5 ∷ []) plan past p ≡ true) }
{}

/// In a run of a right plan where no AC is unanswered, no outstanding transaction is complete, a
/// memory update, an Evict or granted, and none waits for its grant: where a transaction is
/// outstanding all the same, which is then a barrier or one of DVM, or a port owes a DVM Complete,
/// a port is enabled by one of the steps 10 to 14.
pub fn barrier_or_message_has_a_step()
    ensures { (plan : Plan) (past : Trace) → IsRight plan → AreSteps plan past
        → ((q : ℕ) → q < plan.header.ports → answered past q ≡ None)
        → some_issued past (λ x. is_outstanding plan.header past x
        && (is_complete past x.port x.chan x.id || updates_memory x || evicts x
        || is_granted plan.header past x)) ≡ false
        → some_issued past (waits plan.header past) ≡ false
        → (some_issued past (is_outstanding plan.header past)
        || list_any (owes_completion past) (ports_below plan.header.ports)) ≡ true
        → (p : ℕ) × (p < plan.header.ports)
        × (is_enabled_by (10 ∷ 11 ∷ 12 ∷ 13 ∷ 14 ∷ []) plan past p ≡ true) }
{}

/// In a run that follows a right plan so far and isn't done, where no AC is unanswered, no
/// transaction is outstanding and no port owes a DVM Complete, an operation hasn't retired, and a
/// port of the header is enabled by step 4, 13 or 14.
pub fn operation_has_a_step()
    ensures { (plan : Plan) (past : Trace) → IsRight plan → AreSteps plan past
        → FollowsSoFar plan past
        → ((q : ℕ) → q < plan.header.ports → answered past q ≡ None)
        → some_issued past (is_outstanding plan.header past) ≡ false
        → list_any (owes_completion past) (ports_below plan.header.ports) ≡ false
        → is_done plan past ≡ false
        → (p : ℕ) × (p < plan.header.ports)
        × (is_enabled_by (4 ∷ 13 ∷ 14 ∷ []) plan past p ≡ true) }
{}

/// A run never gets stuck: in a run that follows a right plan so far and isn't done, by the test
/// (`undone`) or by what `Done` says (`not_done`), a port of the header is enabled.
pub fn run_goes_on()
    ensures undone { (plan : Plan) (past : Trace) → IsRight plan
        → AreSteps plan past → FollowsSoFar plan past → is_done plan past ≡ false
        → (p : ℕ) × (p < plan.header.ports) × Enabled plan past p }
    ensures not_done { (plan : Plan) (past : Trace) → IsRight plan
        → AreSteps plan past → FollowsSoFar plan past → (Done plan past → ⊥)
        → (p : ℕ) × (p < plan.header.ports) × Enabled plan past p }
{}
