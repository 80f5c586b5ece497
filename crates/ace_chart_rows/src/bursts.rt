// Bursts: transfers of one that come one after another are one row.
ghost use Rattle.std.specs.Prelude.{◌≡◌, if◌then◌else◌, None, Some};
ghost use Rattle.ace_chart_rows.specs.Bursts.{both, burst_of, follows, goes_on, is_one_burst, is_same, is_version, joined};

use ace_chart::{Burst, Row, Version};
use ace_event::Event;
use ace_event_words::Transfers;
use ace_model::Transaction;

/// The transfer of a burst, if it is one.
pub(crate) fn burst_of(transfers: Transfers) -> Option<Burst>
    ensures { result ≡ burst_of transfers }
{
    match transfers {
        Transfers::Nth { number, beats } => Some(Burst {
            first: number,
            last: number,
            beats,
        }),
        Transfers::One | Transfers::Several => None,
    }
}

/// Both belong to the same transaction.
fn is_same(serves: &Option<Transaction>, other: &Option<Transaction>) -> bool
    ensures { result ≡ is_same serves.now other.now }
{
    match (serves, other) {
        (Some(x), Some(y)) => x.place == y.place,
        _ => false,
    }
}

/// Both are transfers of one read with one response, of one write, or of what one port sends for a
/// snoop.
fn is_one_burst(row: &Row, next: &Row) -> bool
    ensures { result
        ≡ is_one_burst row.now.event row.now.serves next.now.event next.now.serves }
{
    match (&row.event, &next.event) {
        (Event::R { resp, .. }, Event::R { resp: of_next, .. }) => {
            is_same(&row.serves, &next.serves) && resp == of_next
        }
        (Event::W { .. }, Event::W { .. }) => is_same(&row.serves, &next.serves),
        (Event::Cd { port, .. }, Event::Cd { port: of_next, .. }) => port == of_next,
        _ => false,
    }
}

/// The transfer comes behind those of the first.
fn follows(burst: &Option<Burst>, next: &Option<Burst>) -> bool
    ensures { result ≡ follows burst.now next.now }
{
    match (burst, next) {
        (Some(burst), Some(next)) => u16::from(next.first) == u16::from(burst.last) + 1,
        _ => false,
    }
}

/// Both are the same value of the line, or none is told.
fn is_version(version: &Option<Version>, other: &Option<Version>) -> bool
    ensures { result ≡ is_version version.now other.now }
{
    match (version, other) {
        (None, None) => true,
        (Some(Version::Unknown), Some(Version::Unknown)) => true,
        (Some(Version::Known { stores }), Some(Version::Known { stores: of_other })) => {
            stores == of_other
        }
        _ => false,
    }
}

/// The second row goes on with the burst of the first.
fn goes_on(row: &Row, next: &Row) -> bool
    ensures { result ≡ goes_on row.now next.now }
{
    is_one_burst(row, next)
        && follows(&row.burst, &next.burst)
        && is_version(&row.version, &next.version)
        && next.left_out == 0
}

/// The transfers of both.
fn both(burst: &Option<Burst>, next: &Option<Burst>) -> Option<Burst>
    ensures { result ≡ both burst.now next.now }
{
    match (burst, next) {
        (Some(burst), Some(next)) => Some(Burst {
            first: burst.first,
            last: next.last,
            beats: burst.beats,
        }),
        _ => *burst,
    }
}

/// The row of both, where the second goes on with the burst of the first.
pub(crate) fn joined(row: &Row, next: &Row) -> Option<Row>
    ensures { result ≡ (if goes_on row.now next.now then Some (joined row.now next.now) else None) }
{
    if goes_on(row, next) {
        Some(Row {
            last: next.last,
            burst: both(&row.burst, &next.burst),
            ..*row
        })
    } else {
        None
    }
}
