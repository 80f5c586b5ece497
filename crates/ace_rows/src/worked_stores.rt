//! Worked rows on what a core does: loads, stores and operations.

ghost use Rattle.std.specs.Prelude.{◌≡◌, None, Some};
ghost use Rattle.ace_model.specs.Accepted.{first_break};
ghost use Rattle.ace_rows.specs.Shorthands.{one_ace, two_ace};
ghost use Rattle.ace_rows.specs.WorkedStores.{loads_what_it_stored, loads_what_was_before, makes_without_a_store, makes_all_but_a_byte, makes_and_stores, skips_an_operation};

/// A load gives what the port stored last.
pub fn a_load_gives_the_last_store()
    ensures accepted { first_break two_ace loads_what_it_stored ≡ None }
    ensures refused { first_break two_ace loads_what_was_before
        ≡ Some (record { index = 9; rule = 31 }) }
{}

/// A MakeUnique gets no data: before its acknowledge the port stores the whole line.
pub fn a_made_line_is_stored_whole()
    ensures without_a_store { first_break one_ace makes_without_a_store
        ≡ Some (record { index = 4; rule = 23 }) }
    ensures without_a_byte { first_break one_ace makes_all_but_a_byte
        ≡ Some (record { index = 4; rule = 32 }) }
    ensures accepted { first_break one_ace makes_and_stores ≡ None }
{}

/// The operations of a port retire in their order.
pub fn operations_retire_in_order()
    ensures refused { first_break one_ace skips_an_operation
        ≡ Some (record { index = 1; rule = 40 }) }
{}
