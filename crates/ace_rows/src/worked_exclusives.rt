//! Worked rows on shared lines that two ports want to store to, and on exclusive accesses.

ghost use Rattle.std.specs.Prelude.{◌≡◌, None, Some};
ghost use Rattle.ace_model.specs.Accepted.{first_break};
ghost use Rattle.ace_rows.specs.Shorthands.{two_ace};
ghost use Rattle.ace_rows.specs.WorkedExclusives.{ends_without_the_line, ends_with_a_lost_line, one_store_passes, stores_twice, both_stores_pass};

/// A port that lost the line while its CleanUnique waited ends without the line.
pub fn a_lost_line_stays_lost()
    ensures accepted { first_break two_ace ends_without_the_line ≡ None }
    ensures refused { first_break two_ace ends_with_a_lost_line
        ≡ Some (record { index = 22; rule = 23 }) }
{}

/// Of two ports that loaded exclusively one may store, once.
pub fn one_exclusive_store_passes()
    ensures accepted { first_break two_ace one_store_passes ≡ None }
    ensures twice { first_break two_ace stores_twice ≡ Some (record { index = 27; rule = 33 }) }
    ensures both { first_break two_ace both_stores_pass ≡ Some (record { index = 28; rule = 21 }) }
{}
