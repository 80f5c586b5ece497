//! Worked rows on memory updates.

ghost use Rattle.std.specs.Prelude.{◌≡◌, None, Some};
ghost use Rattle.ace_model.specs.Accepted.{first_break};
ghost use Rattle.ace_rows.specs.Shorthands.{one_ace, two_ace};
ghost use Rattle.ace_rows.specs.WorkedUpdates.{passes_on_what_it_writes_back, answers_after_its_write_back, shares_a_line_that_leaves, writes_back_old_data};

/// A port that writes its dirty line back may not pass it on too. A snoop that would take the line
/// waits.
pub fn dirt_leaves_once()
    ensures refused { first_break two_ace passes_on_what_it_writes_back
        ≡ Some (record { index = 13; rule = 16 }) }
    ensures accepted { first_break two_ace answers_after_its_write_back ≡ None }
{}

/// A line that is being evicted with its data may be shared meanwhile.
pub fn a_leaving_line_is_shared()
    ensures accepted { first_break two_ace shares_a_line_that_leaves ≡ None }
{}

/// The data of a WriteBack are those of the line.
pub fn a_write_back_has_the_line()
    ensures refused { first_break one_ace writes_back_old_data
        ≡ Some (record { index = 10; rule = 11 }) }
{}
