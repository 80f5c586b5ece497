//! Worked rows on barriers.

ghost use Rattle.std.specs.Prelude.{◌≡◌, None, Some};
ghost use Rattle.ace_model.specs.Accepted.{first_break};
ghost use Rattle.ace_rows.specs.Shorthands.{one_lite};
ghost use Rattle.ace_rows.specs.WorkedBarriers.{answers_a_barrier_at_once, answers_a_barrier_in_order, ordered_read_passes_a_barrier, free_read_passes_a_barrier};

/// A synchronisation barrier is answered once every older transaction of its port is complete.
pub fn a_barrier_waits()
    ensures refused { first_break one_lite answers_a_barrier_at_once
        ≡ Some (record { index = 8; rule = 34 }) }
    ensures accepted { first_break one_lite answers_a_barrier_in_order ≡ None }
{}

/// A younger transaction is granted its line once the barrier is answered, unless it ignores
/// barriers.
pub fn a_barrier_holds_back()
    ensures refused { first_break one_lite ordered_read_passes_a_barrier
        ≡ Some (record { index = 4; rule = 35 }) }
    ensures accepted { first_break one_lite free_read_passes_a_barrier ≡ None }
{}
