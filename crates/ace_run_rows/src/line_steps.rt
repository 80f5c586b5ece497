//! The steps of the interconnect that serve lines, and bursts that lack something of each: they
//! break no rule, and are no steps.

ghost use Rattle.std.specs.Prelude.{◌≡◌, true, false, [], ◌∷◌};
ghost use Rattle.ace_event.specs.declared.event.Channel.TheVariants.{Read, Write};
ghost use Rattle.ace_event.specs.declared.event.Event.TheVariants.{R, Ac, G, M};
ghost use Rattle.ace_rows.specs.Shorthands.{make_invalid, repeated_line};
ghost use Rattle.ace_run_rows.specs.Rows.{is_by, is_refused};
ghost use Rattle.ace_run_rows.specs.Short.{line_writes_plan, line_writes, loads_plan, loads, updates_plan, updates};
ghost use Rattle.ace_run_rows.specs.Shared.{cleaning_plan, cleaning, discards_plan, discards, passing_plan, passing};

/// Step 3: the response of a memory update comes with its write of memory.
pub fn updates_memory()
    ensures given { is_by 3 updates_plan updates 6 ≡ true }
    ensures refused { is_refused updates_plan updates 6 0 (M 0 Write 0 (repeated_line 0x11) ∷ [])
        ≡ true }
{}

/// Step 5: the transaction that waited longest for its line is granted first.
pub fn grants()
    ensures given { is_by 5 discards_plan discards 2 ≡ true }
    ensures refused { is_refused discards_plan discards 2 1 (G 1 Read 0 ∷ []) ≡ true }
{}

/// Step 6: a snoop is a step of the port whose transaction it serves, not of the port that is
/// snooped.
pub fn snoops()
    ensures given { is_by 6 discards_plan discards 6 ≡ true }
    ensures refused { is_refused discards_plan discards 6 0 (Ac 0 0x40 make_invalid ∷ []) ≡ true }
{}

/// Step 7: passed data go to memory where the read can't take them; a ReadShared can.
pub fn saves_passed_data()
    ensures given { is_by 7 cleaning_plan cleaning 8 ≡ true }
    ensures refused { is_refused passing_plan passing 10 1 (M 1 Read 0 (repeated_line 0x11) ∷ [])
        ≡ true }
{}

/// Step 8: a response says that the line is shared only where it has to.
pub fn transfers()
    ensures given { is_by 8 loads_plan loads 2 ≡ true }
    ensures refused { is_refused loads_plan loads 2 0 (R 0 0 8 false 0 ∷ []) ≡ true }
{}

/// Step 9: the response of a write comes with its write of memory.
pub fn writes()
    ensures given { is_by 9 line_writes_plan line_writes 3 ≡ true }
    ensures refused { is_refused line_writes_plan line_writes 3 0
        (M 0 Write 0 (repeated_line 0x22) ∷ []) ≡ true }
{}
