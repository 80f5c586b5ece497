// The changes of state that a port makes on its own.
ghost use Rattle.std.specs.Prelude.{◌≡◌};
ghost use Rattle.ace_tables.specs.SilentTransitions.{is_silent_move};

use ace_codes::LineState;

/// Whether a port may change the state of a line like this on its own, without a transaction (Arm
/// IHI 0022E, C4).
pub fn silent_ok(from: LineState, to: LineState) -> bool
    ensures { result ≡ is_silent_move from to }
{
    matches!(
        (from, to),
        (LineState::UC, LineState::SC | LineState::I)
            | (LineState::SC, LineState::I)
            | (LineState::UD, LineState::SD)
    )
}
