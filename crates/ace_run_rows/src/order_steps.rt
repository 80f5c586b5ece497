//! The steps of the interconnect that order, and bursts that lack something of each: they break no
//! rule, and are no steps.

ghost use Rattle.std.specs.Prelude.{◌≡◌, true, false, [], ◌∷◌};
ghost use Rattle.ace_codes.specs.declared.state.LineState.TheVariants.{I};
ghost use Rattle.ace_event.specs.declared.event.Event.TheVariants.{R, Rk, Ac};
ghost use Rattle.ace_rows.specs.Shorthands.{dvm_message, dvm_complete};
ghost use Rattle.ace_run_rows.specs.Rows.{is_by, is_refused};
ghost use Rattle.ace_run_rows.specs.Short.{barriers_plan, barriers};
ghost use Rattle.ace_run_rows.specs.Shared.{messages_plan, messages};

/// Step 10: both halves of a barrier are answered together.
pub fn answers_barriers()
    ensures given { is_by 10 barriers_plan barriers 1 ≡ true }
    ensures refused { is_refused barriers_plan barriers 1 0 (R 0 0 0 true 0 ∷ []) ≡ true }
{}

/// Step 11: a message goes to each port that hasn't had it, its parts for one port next to each
/// other.
pub fn forwards()
    ensures given { is_by 11 messages_plan messages 1 ≡ true }
    ensures refused { is_refused messages_plan messages 1 0
        (Ac 1 0x1001 dvm_message ∷ Ac 1 0x12345678 dvm_message ∷ []) ≡ true }
    ensures refused_also { is_refused messages_plan messages 1 0
        (Ac 1 0x1001 dvm_message ∷ Ac 2 0x1001 dvm_message ∷ Ac 1 0x12345678 dvm_message
        ∷ Ac 2 0x12345678 dvm_message ∷ []) ≡ true }
{}

/// Step 12: one transaction is answered at a time.
pub fn responds()
    ensures given { is_by 12 messages_plan messages 18 ≡ true }
    ensures refused { is_refused messages_plan messages 18 1 (R 1 0 0 true 0 ∷ R 2 0 0 true 0 ∷ [])
        ≡ true }
{}

/// Step 13: a Sync is completed by itself.
pub fn completes()
    ensures given { is_by 13 messages_plan messages 20 ≡ true }
    ensures refused { is_refused messages_plan messages 20 0 (Ac 0 0 dvm_complete ∷ Rk 1 I ∷ [])
        ≡ true }
{}
