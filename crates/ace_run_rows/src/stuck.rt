//! Why what is said of runs is said of lists of steps: acceptance, following and leanness alone
//! don't keep a run from being stuck.

ghost use Rattle.std.specs.Prelude.{◌≡◌, true, false, None, [], reverse};
ghost use Rattle.ace_model.specs.Accepted.{first_break};
ghost use Rattle.ace_runs.specs.Follows.{follows_so_far, is_done};
ghost use Rattle.ace_runs.specs.Lean.{is_lean};
ghost use Rattle.ace_run_rows.specs.Rows.{enabled_ports};
ghost use Rattle.ace_run_rows.specs.Short.{loads_plan};
ghost use Rattle.ace_run_rows.specs.Lacking.{says_shared};

/// A trace that is accepted, follows its plan so far and is lean, but isn't done, and no port is
/// enabled.
pub fn no_port_is_enabled()
    ensures accepted { first_break loads_plan.header says_shared ≡ None }
    ensures follows { follows_so_far loads_plan (reverse says_shared) ≡ true }
    ensures lean { is_lean loads_plan (reverse says_shared) ≡ true }
    ensures unfinished { is_done loads_plan (reverse says_shared) ≡ false }
    ensures idle { enabled_ports loads_plan (reverse says_shared) ≡ [] }
{}
