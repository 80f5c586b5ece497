//! Runs of one port.

ghost use Rattle.std.specs.Prelude.{◌≡◌, true, [], Some};
ghost use Rattle.ace_runs.specs.Follows.{follows};
ghost use Rattle.ace_runs.specs.Steps.{run_of};
ghost use Rattle.ace_run_rows.specs.Rows.{turns_of, trace_of, enabled_at_each, enabled_in};
ghost use Rattle.ace_run_rows.specs.Short.{loads_plan, loads, updates_plan, updates, line_writes_plan, line_writes, barriers_plan, barriers, exclusive_plan, exclusive};

/// A load, a store, and a WriteBack that finds nothing to write.
pub fn loads()
    ensures steps { run_of loads_plan (turns_of loads) ≡ Some (trace_of loads) }
    ensures enabled { enabled_at_each loads_plan [] loads ≡ enabled_in loads }
    ensures follows { follows loads_plan (trace_of loads) ≡ true }
{}

/// A store of a whole line, and a WriteBack.
pub fn updates()
    ensures steps { run_of updates_plan (turns_of updates) ≡ Some (trace_of updates) }
    ensures enabled { enabled_at_each updates_plan [] updates ≡ enabled_in updates }
    ensures follows { follows updates_plan (trace_of updates) ≡ true }
{}

/// A WriteLineUnique and a ReadOnce of an ACE-Lite port.
pub fn line_writes()
    ensures steps { run_of line_writes_plan (turns_of line_writes) ≡ Some (trace_of line_writes) }
    ensures enabled { enabled_at_each line_writes_plan [] line_writes ≡ enabled_in line_writes }
    ensures follows { follows line_writes_plan (trace_of line_writes) ≡ true }
{}

/// A memory barrier.
pub fn barriers()
    ensures steps { run_of barriers_plan (turns_of barriers) ≡ Some (trace_of barriers) }
    ensures enabled { enabled_at_each barriers_plan [] barriers ≡ enabled_in barriers }
    ensures follows { follows barriers_plan (trace_of barriers) ≡ true }
{}

/// An exclusive load and an exclusive store.
pub fn exclusive()
    ensures steps { run_of exclusive_plan (turns_of exclusive) ≡ Some (trace_of exclusive) }
    ensures enabled { enabled_at_each exclusive_plan [] exclusive ≡ enabled_in exclusive }
    ensures follows { follows exclusive_plan (trace_of exclusive) ≡ true }
{}
