//! Worked rows of the tables, as contracts of functions that do nothing.

ghost use Rattle.std.specs.Prelude.{◌≡◌, true, false, Some, None, [], ◌∷◌};
ghost use Rattle.ace_codes.specs.declared.kind.SnoopKind.TheVariants.{ReadShared, ReadClean, ReadUnique, CleanInvalid, MakeInvalid};
ghost use Rattle.ace_codes.specs.declared.state.LineState.TheVariants.{I, UC, UD, SC, SD};
ghost use Rattle.ace_tables.specs.Answers.{snoop_rows};
ghost use Rattle.ace_tables.specs.Picks.{keep_row, eager_row};

/// Lists of rows, in their order.
#[tactic(auto, unfolding(crate::specs::Answers::snoop_rows, crate::specs::Answers::rows_to, crate::specs::Answers::rows_among))]
pub fn worked_rows()
    ensures shared { snoop_rows ReadShared UD false ≡ record { resp = 9; next = SD }
        ∷ record { resp = 25; next = SD } ∷ record { resp = 13; next = SC }
        ∷ record { resp = 29; next = SC } ∷ record { resp = 5; next = I }
        ∷ record { resp = 21; next = I } ∷ [] }
    ensures with_update { snoop_rows ReadShared UD true ≡ record { resp = 9; next = SD }
        ∷ record { resp = 25; next = SD } ∷ [] }
    ensures unique { snoop_rows ReadUnique UC false ≡ record { resp = 0; next = I }
        ∷ record { resp = 16; next = I } ∷ record { resp = 1; next = I }
        ∷ record { resp = 17; next = I } ∷ [] }
    ensures made_invalid { snoop_rows MakeInvalid UD false ≡ record { resp = 0; next = I }
        ∷ record { resp = 16; next = I } ∷ [] }
    ensures none { snoop_rows CleanInvalid UD true ≡ [] }
{}

/// The rows that a cache takes which keeps its lines, and one which gives them up.
#[tactic(auto, unfolding(crate::specs::Answers::snoop_rows, crate::specs::Answers::rows_to, crate::specs::Answers::rows_among))]
pub fn worked_picks()
    ensures keep { keep_row ReadShared UD false ≡ Some (record { resp = 25; next = SD }) }
    ensures give_up { eager_row ReadShared UD false ≡ Some (record { resp = 21; next = I }) }
    ensures keep_clean { keep_row ReadClean SC false ≡ Some (record { resp = 8; next = SC }) }
    ensures keep_unique { keep_row ReadUnique UC false ≡ Some (record { resp = 16; next = I }) }
    ensures none { keep_row CleanInvalid UD true ≡ None }
{}
