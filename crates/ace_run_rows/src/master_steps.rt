//! The steps of masters, and bursts that lack something of each: they break no rule, and are no
//! steps.

ghost use Rattle.std.specs.Prelude.{◌≡◌, true, false, [], ◌∷◌, take};
ghost use Rattle.ace_codes.specs.declared.state.LineState.TheVariants.{I, UC, SC};
ghost use Rattle.ace_event.specs.declared.event.Event.TheVariants.{Ar, Rk, Cr, L, D, Op};
ghost use Rattle.ace_event.specs.declared.event.Outcome.TheVariants.{Ok};
ghost use Rattle.ace_rows.specs.Shorthands.{read_shared, memory_barrier, repeated_word, four_writes};
ghost use Rattle.ace_runs.specs.Acts.{word_strobe, word_line};
ghost use Rattle.ace_run_rows.specs.Rows.{is_by, is_refused};
ghost use Rattle.ace_run_rows.specs.Short.{barriers_plan, barriers, line_writes_plan, line_writes, loads_plan, loads};
ghost use Rattle.ace_run_rows.specs.Shared.{cleaning_plan, cleaning, messages_plan, messages};

/// Step 1: the answer to a DVM Complete comes with the OP of the Sync, and an answer that announces
/// data with the data.
pub fn answers()
    ensures given { is_by 1 messages_plan messages 23 ≡ true }
    ensures refused { is_refused messages_plan messages 23 0 (Cr 0 0 I ∷ []) ≡ true }
    ensures given_also { is_by 1 cleaning_plan cleaning 7 ≡ true }
    ensures refused_also { is_refused cleaning_plan cleaning 7 0 (Cr 0 0x1d UC ∷ []) ≡ true }
{}

/// Step 2: write data are sent whole.
pub fn write_data()
    ensures given { is_by 2 line_writes_plan line_writes 1 ≡ true }
    ensures refused { is_refused line_writes_plan line_writes 1 0 (take 3 (four_writes 0 0x22))
        ≡ true }
{}

/// Step 4: with the acknowledge comes what ends the operation, and the state is the first of the
/// order that the table allows.
pub fn acknowledges()
    ensures given { is_by 4 loads_plan loads 6 ≡ true }
    ensures refused { is_refused loads_plan loads 6 0 (Rk 0 UC ∷ []) ≡ true }
    ensures refused_also { is_refused loads_plan loads 6 0
        (Rk 0 SC ∷ L 0 0x40 0 false 0 ∷ Op 0 0 Ok ∷ []) ≡ true }
{}

/// Step 14: a store comes with its OP, a transaction takes the least free identifier, and both
/// halves of a barrier come together.
pub fn moves()
    ensures given { is_by 14 loads_plan loads 7 ≡ true }
    ensures refused { is_refused loads_plan loads 7 0
        (D 0 0x40 (word_strobe 0) false (word_line 0 (repeated_word 0x11)) ∷ []) ≡ true }
    ensures given_also { is_by 14 loads_plan loads 0 ≡ true }
    ensures refused_also { is_refused loads_plan loads 0 0 (Ar 0 1 0x40 read_shared 1 0 false ∷ [])
        ≡ true }
    ensures given_too { is_by 14 barriers_plan barriers 0 ≡ true }
    ensures refused_too { is_refused barriers_plan barriers 0 0
        (Ar 0 0 0 0 1 memory_barrier false ∷ []) ≡ true }
{}
