//! What the definition says of the set of a line at points of worked traces. These functions do no
//! work: their contracts are what the definition computes.

ghost use Rattle.std.specs.Prelude.{◌≡◌, true, false, reverse, ◌∷◌, ◌++◌, []};
ghost use Rattle.ace_codes.specs.declared.state.LineState.TheVariants.{I, SC};
ghost use Rattle.ace_event.specs.declared.event.Event.TheVariants.{Ac, Cr, S};
ghost use Rattle.ace_rows.specs.Shorthands.{two_ace, line_a, get};
ghost use Rattle.ace_model.specs.Kept.{kept_ports};
ghost use Rattle.ace_filter_tests.specs.Worked.{answers_i, answers_sc, evicts, snooped};

/// A port is kept from the G of a ReadUnique on. Its silent transition to I doesn't take it out,
/// since no event of the interconnect tells of it; the WK of its Evict does.
pub fn a_port_is_kept_until_it_gives_up()
    ensures empty { kept_ports two_ace [] line_a 0 ≡ false }
    ensures got { kept_ports two_ace (reverse (get 0)) line_a 0 ≡ true }
    ensures other_port { kept_ports two_ace (reverse (get 0)) line_a 1 ≡ false }
    ensures other_line { kept_ports two_ace (reverse (get 0)) 128 0 ≡ false }
    ensures silent { kept_ports two_ace (S 0 line_a I ∷ reverse (get 0)) line_a 0 ≡ true }
    ensures evicted { kept_ports two_ace (reverse evicts) line_a 0 ≡ false }
{}

/// An answer with new state I takes the port out; one that keeps the line doesn't. The reader is
/// kept from its G on.
pub fn a_port_is_kept_until_it_answers_i()
    ensures snooped { kept_ports two_ace (reverse snooped) line_a 0 ≡ true }
    ensures reader { kept_ports two_ace (reverse snooped) line_a 1 ≡ true }
    ensures gone { kept_ports two_ace (reverse answers_i) line_a 0 ≡ false }
    ensures stays { kept_ports two_ace (reverse answers_sc) line_a 0 ≡ true }
{}
