//! A run of many operations.

ghost use Rattle.std.specs.Prelude.{◌≡◌, true, [], Some};
ghost use Rattle.ace_runs.specs.Follows.{follows};
ghost use Rattle.ace_runs.specs.Steps.{run_of};
ghost use Rattle.ace_run_rows.specs.Rows.{turns_of, trace_of, enabled_at_each, enabled_in};
ghost use Rattle.ace_run_rows.specs.Mixed.{mixed_plan, mixed};

/// Seventeen operations of four ports, with exclusive accesses, a barrier, memory updates and reads
/// past the caches.
pub fn mixed()
    ensures steps { run_of mixed_plan (turns_of mixed) ≡ Some (trace_of mixed) }
    ensures enabled { enabled_at_each mixed_plan [] mixed ≡ enabled_in mixed }
    ensures follows { follows mixed_plan (trace_of mixed) ≡ true }
{}
