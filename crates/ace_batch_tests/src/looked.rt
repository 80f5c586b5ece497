// The traces of a list that are looked at.
use crate::entries::results;
use ace_batch::{Entry, add_looked_at};
use ace_io::NoMemory;
use std::alloc::Global;

/// Paths of traces, whether the call is to end with the first that isn't accepted, the path of the
/// last one that is looked at, and whether the call ends with it.
type Row = (&'static [&'static str], bool, &'static str, bool);

const LOOKED: [Row; 7] = [
    (&[], true, "load", false),
    (&["good", "open"], true, "open", false),
    (&["good", "open", "cut"], true, "cut", true),
    (&["good", "none", "open", "late"], true, "none", true),
    (&["full", "good"], true, "full", true),
    (&["good", "none", "open", "late"], false, "late", false),
    (&["full"], false, "full", false),
];

/// The last of these is of this path.
fn is_last(entries: &[Entry], path: &str) -> bool {
    match entries.last() {
        Some(last) => last.path.as_str() == path,
        None => false,
    }
}

/// Behind another one these are looked at so.
fn is_looked_at(alloc: Global, row: &Row) -> Result<bool, NoMemory> {
    let mut entries = results(alloc, &["load"])?;
    let more = results(alloc, row.0)?;
    let over = add_looked_at(&mut entries, more, row.1)?;
    Ok(over == row.3 && is_last(entries.as_slice(), row.2))
}

#[test]
fn a_call_ends_with_the_first_failure(rt: HostRuntime) {
    for row in &LOOKED {
        assert!(rt; is_looked_at(rt.alloc(), row) == Ok(true));
    }
}
