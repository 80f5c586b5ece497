ghost use Rattle.std.specs.Prelude.{◌≡◌, ◌<◌, Bool, List, Contains, length};
ghost use Rattle.ace_codes.specs.declared.state.LineState.{LineState};
ghost use Rattle.ace_codes.specs.declared.kind.SnoopKind.{SnoopKind};
ghost use Rattle.ace_tables.specs.declared.rows.Row.{Row};
ghost use Rattle.ace_tables.specs.Answers.{snoop_rows};

use ace_codes::{LineState, SnoopKind};
use ace_tables::Row;

/// Picks the answer to a snoop: CRRESP, and the state in which the port then holds the line (Arm
/// IHI 0022E, C5).
pub trait Policy {
    /// The rows that it may pick for a snoop, a state, and an update of the line that is
    /// outstanding or not.
    ghost rows: { Self → SnoopKind → LineState → Bool → List Row };

    /// All of them are permitted.
    ghost permitted: { (policy : Self) (snoop : SnoopKind) (held : LineState)
        (update : Bool) (row : Row)
        → Contains (rows policy snoop held update) row
        → Contains (snoop_rows snoop held update) row };

    /// A row for the snoop of a line that is held in this state, with a memory update of the line
    /// outstanding or not. There has to be a permitted one.
    fn pick(&mut self, snoop: SnoopKind, held: LineState, update: bool) -> Row
        requires { 0 < length (snoop_rows snoop held update) }
        ensures picked { Contains (rows self.old snoop held update) result }
        ensures same_rows { (k : SnoopKind) (st : LineState) (u : Bool)
            → rows self.new k st u ≡ rows self.old k st u };
}
