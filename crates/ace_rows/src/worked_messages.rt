//! Worked rows on DVM messages.

ghost use Rattle.std.specs.Prelude.{◌≡◌, None, Some};
ghost use Rattle.ace_model.specs.Accepted.{first_break};
ghost use Rattle.ace_rows.specs.Shorthands.{two_ace, three_ace};
ghost use Rattle.ace_rows.specs.WorkedMessages.{completes_a_sync_early, completes_a_sync, sends_two_parts, forwards_half_a_message, changes_the_domain, snoops_between_two_parts, completes_a_second_part};

/// A Sync is complete once every other port has said that it is complete there.
pub fn a_sync_waits_for_all()
    ensures refused { first_break three_ace completes_a_sync_early
        ≡ Some (record { index = 11; rule = 39 }) }
    ensures accepted { first_break three_ace completes_a_sync ≡ None }
{}

/// A message of two parts is forwarded once both were issued, and nothing comes between the two.
pub fn two_parts_stay_together()
    ensures accepted { first_break two_ace sends_two_parts ≡ None }
    ensures refused_half { first_break two_ace forwards_half_a_message
        ≡ Some (record { index = 2; rule = 36 }) }
    ensures refused_domain { first_break two_ace changes_the_domain
        ≡ Some (record { index = 2; rule = 9 }) }
    ensures refused_between { first_break two_ace snoops_between_two_parts
        ≡ Some (record { index = 6; rule = 36 }) }
{}

/// A second part with the word of a Sync is none: no port completes it.
pub fn a_second_part_is_no_sync()
    ensures refused { first_break two_ace completes_a_second_part
        ≡ Some (record { index = 7; rule = 38 }) }
{}
