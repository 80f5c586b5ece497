// The traces of a list that are looked at.
ghost use Rattle.std.specs.Prelude.{◌≡◌, ◌++◌, take, IfOk, OnOk};
ghost use Rattle.std.specs.List.{list_any};
ghost use Rattle.ace_batch.specs.Looked.{ends_with, looked_at};

use crate::entry::Entry;
use ace_io::NoMemory;

/// The call ends with this trace.
fn ends_with(fail_fast: bool, entry: &Entry) -> bool
    ensures { result ≡ ends_with fail_fast entry.now }
{
    fail_fast && entry.outcome.status() != 0
}

/// How many of these traces are looked at.
fn looked_count(fail_fast: bool, entries: &[Entry]) -> usize
    ensures { take result entries.now ≡ looked_at fail_fast entries.now }
{
    for place in 0..entries.len() {
        if ends_with(fail_fast, &entries[place]) {
            return place + 1;
        }
    }
    entries.len()
}

/// The call ends with one of these traces.
fn is_over(fail_fast: bool, entries: &[Entry]) -> bool
    ensures { result ≡ list_any (ends_with fail_fast) entries.now }
{
    for entry in entries {
        if ends_with(fail_fast, entry) {
            return true;
        }
    }
    false
}

/// Adds of these results, which are those of the next traces of a list, those of the ones that are
/// looked at: all of them; or where the call is to end with the first that isn't accepted, those up
/// to that one. Returns whether the call ends with one of them.
///
/// # Errors
///
/// `NoMemory` where there is none for the longer list.
pub fn add_looked_at(
    entries: &mut Vec<Entry>,
    more: Vec<Entry>,
    fail_fast: bool,
) -> Result<bool, NoMemory>
    ensures added { OnOk result
        (entries.new.items ≡ entries.old.items ++ looked_at fail_fast more.items) }
    ensures over { IfOk result (λ over. over ≡ list_any (ends_with fail_fast) more.items) }
{
    let mut more = more;
    let over = is_over(fail_fast, more.as_slice());
    let count = looked_count(fail_fast, more.as_slice());
    more.truncate(count);
    match entries.append(&mut more) {
        Ok(()) => Ok(over),
        Err(_) => Err(NoMemory),
    }
}
