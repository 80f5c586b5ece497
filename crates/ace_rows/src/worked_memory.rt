//! Worked rows on the memory that a trace opens with.

ghost use Rattle.std.specs.Prelude.{◌≡◌, None, Some, reverse};
ghost use Rattle.ace_model.specs.Accepted.{first_break};
ghost use Rattle.ace_model.specs.Copies.{memory_of, zero_line};
ghost use Rattle.ace_model.specs.Values.{value_of};
ghost use Rattle.ace_rows.specs.Shorthands.{one_lite, line_a, repeated_line};
ghost use Rattle.ace_rows.specs.WorkedMemory.{one_ace_2, one_lite_2, opens_a_line, reads_what_was_opened, reads_zeros, opens_late, opens_two_lines, opens_out_of_order, opens_a_line_twice, opens_a_word};

/// A line has in memory what it was opened with, and that is its value: a read gives it, and not
/// zeros.
pub fn a_read_gives_what_was_opened()
    ensures accepted { first_break one_lite_2 reads_what_was_opened ≡ None }
    ensures refused { first_break one_lite_2 reads_zeros ≡ Some (record { index = 4; rule = 20 }) }
    ensures memory { memory_of (reverse opens_two_lines) line_a ≡ repeated_line 0xaa }
    ensures value { value_of (reverse opens_two_lines) line_a ≡ repeated_line 0xaa }
    ensures other { memory_of (reverse opens_two_lines) 0xc0 ≡ zero_line }
{}

/// Memory opens before all else, line by line in the order of the addresses.
pub fn memory_opens_first_and_in_order()
    ensures late { first_break one_ace_2 opens_late ≡ Some (record { index = 2; rule = 3 }) }
    ensures accepted { first_break one_ace_2 opens_two_lines ≡ None }
    ensures out_of_order { first_break one_ace_2 opens_out_of_order
        ≡ Some (record { index = 2; rule = 3 }) }
    ensures twice { first_break one_ace_2 opens_a_line_twice
        ≡ Some (record { index = 2; rule = 3 }) }
    ensures unaligned { first_break one_ace_2 opens_a_word ≡ Some (record { index = 1; rule = 3 }) }
{}

/// A trace of version 1 opens no memory.
pub fn version_1_opens_none()
    ensures refused { first_break one_lite opens_a_line ≡ Some (record { index = 1; rule = 3 }) }
{}
