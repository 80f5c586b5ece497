// How many traces came out how, and the status of all of them.
ghost use Rattle.std.specs.Prelude.{◌≡◌, ◌≢◌, ◌≤◌, length};
ghost use Rattle.std.specs.List.{list_any};
ghost use Rattle.ace_batch.specs.Counts.{count_of, events_of, first_of, has_some, has_status, is_open, open_count, order, status_of_all};

use crate::entry::Entry;

/// The order in which statuses count.
const ORDER: [u8; 6] = [1, 3, 8, 6, 4, 7];

/// The trace has this status.
fn has_status(status: u8, entry: &Entry) -> bool
    ensures { result ≡ has_status status entry.now }
{
    entry.outcome.status() == status
}

/// So many traces have this status.
#[tactic(auto, using(crate::proofs::CountSteps::counting))]
pub(crate) fn count_of(status: u8, entries: &[Entry]) -> usize
    ensures value { result ≡ count_of status entries.now }
    ensures bound { result ≤ length entries.now }
{
    let mut count = 0;
    for entry in entries {
        if has_status(status, entry) {
            count += 1;
        }
    }
    count
}

/// Some are outstanding.
fn has_some(outstanding: Option<u64>) -> bool
    ensures { result ≡ has_some outstanding }
{
    match outstanding {
        Some(count) => count > 0,
        None => false,
    }
}

/// The trace is accepted, and transactions are outstanding at its end.
fn is_open(entry: &Entry) -> bool
    ensures { result ≡ is_open entry.now }
{
    entry.outcome.status() == 0 && has_some(entry.outstanding)
}

/// So many traces are.
#[tactic(auto, using(crate::proofs::CountSteps::opens))]
pub(crate) fn open_count(entries: &[Entry]) -> usize
    ensures value { result ≡ open_count entries.now }
    ensures bound { result ≤ length entries.now }
{
    let mut count = 0;
    for entry in entries {
        if is_open(entry) {
            count += 1;
        }
    }
    count
}

/// How many events were judged.
#[tactic(auto, using(crate::proofs::CountSteps::events))]
pub(crate) fn events_of(entries: &[Entry]) -> u128
    ensures { result ≡ events_of entries.now }
{
    let mut events = 0;
    for entry in entries {
        events += entry.events as u128;
    }
    events
}

/// One of the traces has this status.
fn has_any(status: u8, entries: &[Entry]) -> bool
    ensures { result ≡ list_any (has_status status) entries.now }
{
    for entry in entries {
        if has_status(status, entry) {
            return true;
        }
    }
    false
}

/// The first of the statuses, in their order, that one of the traces has, or else 0.
#[tactic(auto, using(crate::proofs::CountSteps::order_step))]
fn first_of(entries: &[Entry]) -> u8
    ensures value { result ≡ first_of order entries.now }
    ensures no_write_fault { result ≢ 5 }
{
    for status in ORDER {
        if has_any(status, entries) {
            return status;
        }
    }
    0
}

/// The status of all of these traces: the first that occurs of 1, 3, 8, 6, 4 and 7, and else 0. Of
/// no trace it is 2.
pub fn status_of_all(entries: &[Entry]) -> u8
    ensures value { result ≡ status_of_all entries.now }
    ensures no_write_fault { result ≢ 5 }
{
    match entries {
        [] => 2,
        _ => first_of(entries),
    }
}
