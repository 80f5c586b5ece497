//! Runs in which ports are snooped.

ghost use Rattle.std.specs.Prelude.{◌≡◌, true, [], Some};
ghost use Rattle.ace_runs.specs.Follows.{follows};
ghost use Rattle.ace_runs.specs.Steps.{run_of};
ghost use Rattle.ace_run_rows.specs.Rows.{turns_of, trace_of, enabled_at_each, enabled_in};
ghost use Rattle.ace_run_rows.specs.Shared.{discards_plan, discards, cleaning_plan, cleaning, messages_plan, messages, passing_plan, passing};

/// A MakeInvalid discards what another port has stored.
pub fn discards()
    ensures steps { run_of discards_plan (turns_of discards) ≡ Some (trace_of discards) }
    ensures enabled { enabled_at_each discards_plan [] discards ≡ enabled_in discards }
    ensures follows { follows discards_plan (trace_of discards) ≡ true }
{}

/// A CleanShared of a dirty line: its passed data go to memory.
pub fn cleaning()
    ensures steps { run_of cleaning_plan (turns_of cleaning) ≡ Some (trace_of cleaning) }
    ensures enabled { enabled_at_each cleaning_plan [] cleaning ≡ enabled_in cleaning }
    ensures follows { follows cleaning_plan (trace_of cleaning) ≡ true }
{}

/// A DVM message of two parts, and a Sync.
pub fn messages()
    ensures steps { run_of messages_plan (turns_of messages) ≡ Some (trace_of messages) }
    ensures enabled { enabled_at_each messages_plan [] messages ≡ enabled_in messages }
    ensures follows { follows messages_plan (trace_of messages) ≡ true }
{}

/// A ReadShared takes the dirty data that a snooped port passes on.
pub fn passing()
    ensures steps { run_of passing_plan (turns_of passing) ≡ Some (trace_of passing) }
    ensures enabled { enabled_at_each passing_plan [] passing ≡ enabled_in passing }
    ensures follows { follows passing_plan (trace_of passing) ≡ true }
{}
