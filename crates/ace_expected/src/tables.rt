// What the tables of states allow.
ghost use Rattle.std.specs.Prelude.{◌≡◌};
ghost use Rattle.ace_expected.specs.Tables.{allows};

use crate::wanted::StateTable;
use ace_codes::LineState;
use ace_tables::{
    end_read, end_write, is_invalid, is_unique, silent_ok, start_read_ok, start_write_ok,
};

/// The state is one that the table allows.
pub(crate) fn allows(table: StateTable, state: LineState) -> bool
    ensures { result ≡ allows table state }
{
    match table {
        StateTable::ReadStart { kind } => start_read_ok(kind, state),
        StateTable::WriteStart { kind } => start_write_ok(kind, state),
        StateTable::ReadEnd {
            kind,
            held,
            shared,
            pass,
            failed,
        } => end_read(kind, held, shared, pass, failed).has(state),
        StateTable::WriteEnd { kind, held } => end_write(kind, held).has(state),
        StateTable::Silent { held } => silent_ok(held, state),
        StateTable::Load => !is_invalid(state),
        StateTable::Store => is_unique(state),
    }
}
