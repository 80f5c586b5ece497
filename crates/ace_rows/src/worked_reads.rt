//! Worked rows on reads of a line that other ports hold.

ghost use Rattle.std.specs.Prelude.{◌≡◌, None, Some};
ghost use Rattle.ace_model.specs.Accepted.{first_break};
ghost use Rattle.ace_rows.specs.Shorthands.{clean_invalid, one_lite, two_ace, one_ace_one_lite, three_ace_one_lite};
ghost use Rattle.ace_rows.specs.WorkedReads.{takes_a_line_over, takes_a_line_without_a_snoop, passes_dirty_line_on, forgets_passed_dirt, hides_a_sharer, drops_passed_data, writes_passed_data, asks_to_discard, discards_dirty_data, keeps_the_reply, tears_the_reply, grants_before_the_acknowledge, writes_a_shared_line, mixes_shareability};

/// A port gets a line that another port holds: that port is snooped first. Without the snoop the
/// first transfer breaks K18.
pub fn another_port_is_snooped()
    ensures accepted { first_break two_ace takes_a_line_over ≡ None }
    ensures refused { first_break two_ace takes_a_line_without_a_snoop
        ≡ Some (record { index = 10; rule = 18 }) }
{}

/// A dirty line that is passed on is dirty at its new holder, or its data are lost to memory.
pub fn dirt_is_passed_on()
    ensures accepted { first_break two_ace passes_dirty_line_on ≡ None }
    ensures refused { first_break two_ace forgets_passed_dirt
        ≡ Some (record { index = 21; rule = 23 }) }
{}

/// Where a snooped port keeps the line, the response says that it is shared.
pub fn a_sharer_is_told()
    ensures refused { first_break two_ace hides_a_sharer ≡ Some (record { index = 12; rule = 19 }) }
{}

/// Passed data go to a read that takes them, or to memory.
pub fn passed_data_go_somewhere()
    ensures refused { first_break two_ace drops_passed_data
        ≡ Some (record { index = 17; rule = 18 }) }
    ensures accepted { first_break two_ace writes_passed_data ≡ None }
{}

/// A MakeInvalid may discard dirty data, and is snooped as what it is.
pub fn dirty_data_are_discarded()
    ensures accepted { first_break two_ace discards_dirty_data ≡ None }
    ensures refused { first_break two_ace (asks_to_discard clean_invalid)
        ≡ Some (record { index = 11; rule = 13 }) }
{}

/// The transfers of a read are of one line, as the snooped port held it when it answered.
pub fn a_read_gives_one_line()
    ensures accepted { first_break one_ace_one_lite keeps_the_reply ≡ None }
    ensures refused { first_break one_ace_one_lite tears_the_reply
        ≡ Some (record { index = 20; rule = 20 }) }
{}

/// A line is granted to one transaction at a time.
pub fn a_line_has_one_grant()
    ensures refused { first_break two_ace grants_before_the_acknowledge
        ≡ Some (record { index = 5; rule = 12 }) }
{}

/// A port writes a whole line that three others share.
pub fn sharers_give_a_line_up()
    ensures accepted { first_break three_ace_one_lite writes_a_shared_line ≡ None }
{}

/// A line is Non-shareable in all its transactions, or in none.
pub fn a_line_has_one_shareability()
    ensures refused { first_break one_lite mixes_shareability
        ≡ Some (record { index = 7; rule = 8 }) }
{}
