//! What the terms of the rules say at points of a trace.

ghost use Rattle.std.specs.Prelude.{◌≡◌, None, Some, true, false, reverse, length, ◌∷◌};
ghost use Rattle.ace_codes.specs.declared.state.LineState.TheVariants.{I, UC, UD};
ghost use Rattle.ace_event.specs.declared.event.Channel.TheVariants.{Write};
ghost use Rattle.ace_event.specs.declared.event.Event.TheVariants.{Rk, Wk};
ghost use Rattle.ace_model.specs.Transactions.{outstanding};
ghost use Rattle.ace_model.specs.Grants.{granted, has_passed_data, are_passed_data_whole};
ghost use Rattle.ace_model.specs.States.{state_of, has_store, owes_wack, are_snoops_done};
ghost use Rattle.ace_model.specs.Copies.{copy_of, memory_of, zero_line};
ghost use Rattle.ace_model.specs.Replies.{passed_data, reply_of};
ghost use Rattle.ace_model.specs.Values.{stores_of, value_of};
ghost use Rattle.ace_rows.specs.Shorthands.{two_ace, line_a, read_clean, repeated_line, get};
ghost use Rattle.ace_rows.specs.WorkedReads.{cleans_for_a_read, stores_during_a_read, gives_dirty_line_up, discards_dirty_data, writes_a_shared_line};
ghost use Rattle.ace_rows.specs.Terms.{stores, writes_back, passes_dirt, sends_dirt, second_read, writes_dirt, read_once_of_the_line, makes, makes_and_stores_a_line};

/// A store makes a unique line dirty, and the write acknowledge of its WriteBack ends with the line
/// invalid. Between the response and that acknowledge the port may not be snooped.
pub fn stores_and_writes_back()
    ensures got { state_of two_ace (reverse (get 0)) 0 line_a ≡ UC }
    ensures stored { state_of two_ace (reverse stores) 0 line_a ≡ UD }
    ensures owes { owes_wack two_ace (reverse writes_back) 0 line_a ≡ true }
    ensures written { state_of two_ace (Wk 0 I ∷ reverse writes_back) 0 line_a ≡ I }
    ensures ended { outstanding two_ace (Wk 0 I ∷ reverse writes_back) 0 Write 0 ≡ None }
{}

/// The data that a snooped port passes on belong to the granted read, and its snoops are done once
/// they are whole.
pub fn passes_dirty_data()
    ensures granted { granted two_ace (reverse passes_dirt) line_a ≡ Some second_read }
    ensures given_up { state_of two_ace (reverse passes_dirt) 0 line_a ≡ I }
    ensures passed { has_passed_data two_ace (reverse passes_dirt) second_read ≡ true }
    ensures part { are_snoops_done two_ace (reverse passes_dirt) second_read ≡ false }
    ensures whole { are_passed_data_whole two_ace (reverse sends_dirt) second_read ≡ true }
    ensures done { are_snoops_done two_ace (reverse sends_dirt) second_read ≡ true }
{}

/// The store of a MakeUnique belongs to it, and the line is dirty from its acknowledge on.
pub fn makes_unique()
    ensures wants { has_store two_ace (reverse makes) 0 0 ≡ false }
    ensures stored { has_store two_ace (reverse makes_and_stores_a_line) 0 0 ≡ true }
    ensures held { state_of two_ace (reverse makes_and_stores_a_line) 0 line_a ≡ I }
    ensures acknowledged { state_of two_ace (Rk 0 UD ∷ reverse makes_and_stores_a_line) 0 line_a
        ≡ UD }
{}

/// A store changes the value of a line and the copy of its port; memory has it from the M on.
pub fn memory_lags_behind()
    ensures stored { value_of (reverse stores) line_a ≡ repeated_line 0x11 }
    ensures copied { copy_of (reverse stores) 0 line_a ≡ repeated_line 0x11 }
    ensures before { memory_of (reverse stores) line_a ≡ zero_line }
    ensures after { memory_of (reverse writes_back) line_a ≡ repeated_line 0x11 }
{}

/// Passed data are the copy of the port that passes them, until they are written to memory or
/// taken.
pub fn passed_data_are_a_copy()
    ensures passed { passed_data two_ace (reverse (cleans_for_a_read read_clean)) line_a
        ≡ Some (repeated_line 0x11) }
    ensures written { passed_data two_ace (reverse writes_dirt) line_a ≡ None }
    ensures memory { memory_of (reverse writes_dirt) line_a ≡ repeated_line 0x11 }
{}

/// The reply of a read is the line of the port that sent data, else memory as it was at the first
/// beat.
pub fn a_reply_stays()
    ensures sent { reply_of (reverse sends_dirt) second_read ≡ repeated_line 0x11 }
    ensures first { reply_of (reverse stores_during_a_read) read_once_of_the_line ≡ zero_line }
    ensures now { memory_of (reverse stores_during_a_read) line_a ≡ repeated_line 0x22 }
{}

/// The write of an ACE-Lite port is a store of the line too, from its M on.
pub fn a_write_is_a_store()
    ensures two { length (stores_of (reverse writes_a_shared_line) line_a) ≡ 2 }
    ensures value { value_of (reverse writes_a_shared_line) line_a ≡ repeated_line 0x44 }
    ensures lost { copy_of (reverse writes_a_shared_line) 2 line_a ≡ repeated_line 0x11 }
{}

/// The transfer of a MakeInvalid makes the value of the line what memory has, and no cache holds
/// the line then.
pub fn a_discard_is_a_store()
    ensures held { copy_of (reverse gives_dirty_line_up) 1 line_a ≡ repeated_line 0x11 }
    ensures before { value_of (reverse gives_dirty_line_up) line_a ≡ repeated_line 0x11 }
    ensures memory { memory_of (reverse gives_dirty_line_up) line_a ≡ zero_line }
    ensures gone { state_of two_ace (reverse gives_dirty_line_up) 1 line_a ≡ I }
    ensures after { value_of (reverse discards_dirty_data) line_a ≡ zero_line }
    ensures two { length (stores_of (reverse discards_dirty_data) line_a) ≡ 2 }
{}
