//! The demands on a trace that follows a plan, and for each an accepted trace that lacks it.

ghost use Rattle.std.specs.Prelude.{◌≡◌, true, false, None, reverse};
ghost use Rattle.ace_model.specs.Accepted.{first_break};
ghost use Rattle.ace_runs.specs.Follows.{follows, follows_so_far};
ghost use Rattle.ace_run_rows.specs.Rows.{events_of};
ghost use Rattle.ace_run_rows.specs.Short.{loads_plan, updates_plan, line_writes_plan, exclusive_plan};
ghost use Rattle.ace_run_rows.specs.Shared.{cleaning_plan, cleaning};
ghost use Rattle.ace_run_rows.specs.Lacking.{lacks_an_operation, has_an_operation_more, lacks_an_act, has_another_act, acts_at_the_end, issues_no_update, retires_too_soon, skips_a_dirty_line, fails_with_its_monitor, carries_other_data, one_write, leaves_a_write, two_lines, holds_two_lines, eager_plan};

/// Each port has as many OPs as operations, and no more.
pub fn operations_retire()
    ensures fewer_accepted { first_break loads_plan.header lacks_an_operation ≡ None }
    ensures fewer { follows loads_plan (reverse lacks_an_operation) ≡ false }
    ensures fewer_so_far { follows_so_far loads_plan (reverse lacks_an_operation) ≡ true }
    ensures more_accepted { first_break loads_plan.header has_an_operation_more ≡ None }
    ensures more { follows_so_far loads_plan (reverse has_an_operation_more) ≡ false }
{}

/// A segment that ends in `ok` has the acts of its operation, and no act comes after the last OP.
pub fn acts_are_made()
    ensures missing_accepted { first_break loads_plan.header lacks_an_act ≡ None }
    ensures missing { follows_so_far loads_plan (reverse lacks_an_act) ≡ false }
    ensures other_accepted { first_break loads_plan.header has_another_act ≡ None }
    ensures other { follows_so_far loads_plan (reverse has_another_act) ≡ false }
    ensures late_accepted { first_break loads_plan.header acts_at_the_end ≡ None }
    ensures late { follows_so_far loads_plan (reverse acts_at_the_end) ≡ false }
{}

/// An operation retires with `ok` where what it asked for was issued, or is complete, as it wants;
/// with `skip` where there was nothing to do; and with `fail` where the store can't be made.
pub fn outcomes_are_met()
    ensures issued_accepted { first_break updates_plan.header issues_no_update ≡ None }
    ensures issued { follows_so_far updates_plan (reverse issues_no_update) ≡ false }
    ensures complete_accepted { first_break line_writes_plan.header retires_too_soon ≡ None }
    ensures complete { follows_so_far line_writes_plan (reverse retires_too_soon) ≡ false }
    ensures skipped_accepted { first_break updates_plan.header skips_a_dirty_line ≡ None }
    ensures skipped { follows_so_far updates_plan (reverse skips_a_dirty_line) ≡ false }
    ensures failed_accepted { first_break exclusive_plan.header fails_with_its_monitor ≡ None }
    ensures failed { follows_so_far exclusive_plan (reverse fails_with_its_monitor) ≡ false }
{}

/// The data of a write are those of its operation.
pub fn writes_carry_their_data()
    ensures data_accepted { first_break line_writes_plan.header carries_other_data ≡ None }
    ensures data { follows_so_far line_writes_plan (reverse carries_other_data) ≡ false }
{}

/// At the end nothing is outstanding.
pub fn nothing_is_left()
    ensures end_accepted { first_break one_write.header leaves_a_write ≡ None }
    ensures end { follows one_write (reverse leaves_a_write) ≡ false }
    ensures end_so_far { follows_so_far one_write (reverse leaves_a_write) ≡ true }
{}

/// A port holds no more lines than it has ways.
pub fn lines_have_ways()
    ensures one { follows_so_far (two_lines 1) (reverse holds_two_lines) ≡ false }
    ensures two { follows (two_lines 2) (reverse holds_two_lines) ≡ true }
{}

/// Snoops are answered as the policy picks: what a cache does that keeps lines isn't what an eager
/// one does.
pub fn answers_are_picked()
    ensures keeps { follows cleaning_plan (reverse (events_of cleaning)) ≡ true }
    ensures eager { follows_so_far eager_plan (reverse (events_of cleaning)) ≡ false }
{}
