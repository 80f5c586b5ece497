//! What a transaction stores.

ghost use Rattle.std.specs.Prelude.{◌≡◌};
ghost use Rattle.std.specs.Option.{option_copied};
ghost use Rattle.ace_model.specs.Values.{stores_data, discards_data};
ghost use Rattle.ace_report.specs.Heard.{whole, written_bytes};

use ace_codes::{ArKind, AwKind, read_ar, read_aw};
use ace_event::{Channel, Line};
use ace_model::Transaction;
use ace_portck::{Progress, WriteData};

/// All strobes of a line.
const FULL_LINE: u64 = u64::MAX;

/// The write stores to its line without a cache: WriteUnique, WriteLineUnique, WriteNoSnoop.
fn stores_data(x: &Transaction) -> bool
    ensures { result ≡ stores_data x.now }
{
    match x.chan {
        Channel::Read => false,
        Channel::Write => matches!(
            read_aw(x.snoop, x.dom, x.bar),
            Some(AwKind::WriteUnique | AwKind::WriteLineUnique | AwKind::WriteNoSnoop)
        ),
    }
}

/// The transaction gives up data that are newer than memory: MakeInvalid.
pub(crate) fn discards_data(x: &Transaction) -> bool
    ensures { result ≡ discards_data x.now }
{
    match x.chan {
        Channel::Read => matches!(read_ar(x.snoop, x.dom, x.bar), Some(ArKind::MakeInvalid)),
        Channel::Write => false,
    }
}

/// The burst of the transaction of an M, where it is a write that stores.
pub(crate) fn written_bytes(x: Option<&Progress>, burst: Option<&WriteData>) -> Option<WriteData>
    ensures { result ≡ written_bytes (option_copied x.entry) (option_copied burst.entry) }
{
    match x {
        Some(write) if stores_data(&write.transaction) => burst.copied(),
        _ => None,
    }
}

/// All bytes of the line.
pub(crate) fn whole(line: Line) -> WriteData
    ensures { result ≡ whole line }
{
    WriteData {
        strobe: FULL_LINE,
        line,
    }
}
