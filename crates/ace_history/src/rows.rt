//! What the definitions say of small histories. These functions do no work: what they promise is
//! the row.

ghost use Rattle.std.specs.Prelude.{◌≡◌, true, false, [], ◌∷◌};
ghost use Rattle.ace_event.specs.declared.event.Event.TheVariants as event;
ghost use Rattle.ace_event.specs.declared.event.Outcome.TheVariants.{Ok};
ghost use Rattle.ace_runs.specs.Acts.{word_line};
ghost use Rattle.ace_history.specs.Histories.{history_of};
ghost use Rattle.ace_history.specs.Reserved.{AreExclusive};
ghost use Rattle.ace_history.specs.Rows.{failed, loaded, reserved, row_plan, stored, tried};
ghost use Rattle.ace_history.specs.Stored.{AreRightWords};
ghost use Rattle.ace_model.specs.declared.plans.Op.TheVariants.{Ld, St};

/// A load has the word of the last store, and no other.
pub fn words_of_loads()
    ensures stored { AreRightWords [] (stored 0 64 0x11 ∷ loaded 1 64 0 0x11 ∷ []) }
    ensures zero { AreRightWords [] (stored 0 64 0x11 ∷ loaded 1 64 1 0 ∷ []) }
    ensures last { AreRightWords []
        (stored 0 64 0x11 ∷ stored 0 64 0x12 ∷ reserved 1 64 0x12 ∷ []) }
    ensures failed { AreRightWords []
        (stored 0 64 0x11 ∷ failed 1 64 0x12 ∷ loaded 1 64 0 0x11 ∷ []) }
    ensures dropped { AreRightWords [] (stored 0 64 0x11 ∷ loaded 1 64 0 0 ∷ []) → ⊥ }
    ensures other_line { AreRightWords [] (stored 0 128 0x11 ∷ loaded 1 64 0 0x11 ∷ []) → ⊥ }
    ensures wrong_failed { AreRightWords []
        (stored 0 64 0x11 ∷ failed 1 64 0x12 ∷ loaded 1 64 0 0x12 ∷ []) → ⊥ }
{}

/// An exclusive store is `ok` where its port has loaded the line exclusively and no other port has
/// stored to it since.
pub fn exclusive_stores()
    ensures own { AreExclusive [] (reserved 0 64 0 ∷ tried 0 64 1 ∷ []) }
    ensures elsewhere { AreExclusive []
        (reserved 0 64 0 ∷ stored 1 128 7 ∷ tried 0 64 1 ∷ []) }
    ensures after_a_fail { AreExclusive []
        (reserved 0 64 0 ∷ failed 1 64 5 ∷ tried 0 64 1 ∷ []) }
    ensures unloaded { AreExclusive [] (tried 0 64 1 ∷ []) → ⊥ }
    ensures stored_between { AreExclusive []
        (reserved 0 64 0 ∷ stored 1 64 7 ∷ tried 0 64 1 ∷ []) → ⊥ }
    ensures both { AreExclusive []
        (reserved 0 64 0 ∷ reserved 1 64 0 ∷ tried 1 64 1 ∷ tried 0 64 1 ∷ []) → ⊥ }
    ensures twice { AreExclusive [] (reserved 0 64 0 ∷ tried 0 64 1 ∷ tried 0 64 2 ∷ []) → ⊥ }
{}

/// The history of a trace: an entry for each OP, with the word that its port loaded for it.
pub fn history_of_a_trace()
    ensures two { history_of
        (row_plan (record { port = 0; op = St 64 0 0x11 } ∷ record { port = 1; op = Ld 64 0 } ∷ []))
        (event.Op 1 0 Ok ∷ event.L 1 64 0 false 0x11
        ∷ event.Op 0 0 Ok ∷ event.D 0 64 65535 false (word_line 0 0x11) ∷ [])
        ≡ stored 0 64 0x11 ∷ loaded 1 64 0 0x11 ∷ [] }
    ensures not_yet { history_of (row_plan (record { port = 1; op = Ld 64 0 } ∷ []))
        (event.L 1 64 0 false 0x11 ∷ []) ≡ [] }
{}
