// What is counted of traces, and what is told of that.

use ace_cover::{Listing, Totals, all_points, cover_within, no_hits, push_json, push_table};
use ace_io::MemSource;
use ace_parts::{CountsErr, read_counts};
use ace_verdict::{Limits, Verdict};
use std::alloc::Global;
use std::test::Fail;

/// An ACE port reads a line to have it alone, and gives it up.
const GIVES_UP: &str = "ACE 1\nPORTS AL\n\
    AR 0 0 00000040 7 1 0 0\nG 0 R 0\n\
    R 0 0 0 0 00000000000000000000000000000000\nR 0 0 0 0 00000000000000000000000000000000\n\
    R 0 0 0 0 00000000000000000000000000000000\nR 0 0 0 1 00000000000000000000000000000000\n\
    RK 0 UC\nS 0 00000040 I\n";

const GIVEN_UP: &str = "{\"format\":\"ace cover 1\",\"traces\":2,\"events\":16,\"hits\":{\
    \"transactions\":{\"ACE ReadUnique\":2},\"start states\":{\"ReadUnique from I\":2},\
    \"ends of reads\":{\"ReadUnique from I, IsShared 0, PassDirty 0 -> UC\":2},\
    \"ends of writes\":{},\"snoop answers\":{},\"snoop answers with an update outstanding\":{},\
    \"silent transitions\":{\"UC -> I\":2},\"rules in earnest\":{\"K29\":2},\
    \"situations\":{}}}\n";

/// The same, and the port moves the line to a state to which it can't.
const REFUSED: &str = "ACE 1\nPORTS AL\nS 0 00000040 UD\n";

/// What these traces have shown.
fn totals_of(alloc: Global, texts: &[&str]) -> Result<Totals, Fail> {
    let points = all_points(alloc)?;
    let mut totals = Totals::none(alloc, points.as_slice())?;
    for text in texts {
        let mut hits = no_hits(alloc, points.as_slice())?;
        let mut source = MemSource::new(alloc, text.as_bytes(), &[64], &[])?;
        let limits = Limits::of_a_trace();
        let verdict = cover_within(alloc, &mut source, limits, points.as_slice(), &mut hits);
        drop(source);
        if let Verdict::Accepted { events } = verdict {
            totals.add(events, hits.as_slice());
        }
    }
    Ok(totals)
}

/// Whether the JSON of these traces is this one.
fn is_json(alloc: Global, texts: &[&str], wanted: &str) -> Result<bool, Fail> {
    let totals = totals_of(alloc, texts)?;
    let mut text = Vec::new(alloc);
    push_json(alloc, &mut text, &totals)?;
    let holds = text.as_slice() == wanted.as_bytes();
    Ok(holds)
}

#[test]
fn accepted_traces_are_counted(rt: HostRuntime) -> Result<(), Fail> {
    assert!(rt; is_json(rt.alloc(), &[GIVES_UP, REFUSED, GIVES_UP], GIVEN_UP)?);
    Ok(())
}

/// Whether the table of these traces begins so, and fewer of a hundred points than so many were
/// hit.
fn has_table(alloc: Global, texts: &[&str], wanted: &str, percent: u8) -> Result<bool, Fail> {
    let totals = totals_of(alloc, texts)?;
    let mut text = Vec::new(alloc);
    push_table(alloc, &mut text, &totals, Listing::Few)?;
    let holds = text.as_slice().starts_with(wanted.as_bytes())
        && totals.is_below(percent)
        && !totals.is_below(percent.wrapping_sub(1));
    Ok(holds)
}

#[test]
fn a_table_counts_points(rt: HostRuntime) -> Result<(), Fail> {
    let wanted = "1 accepted trace, 8 events\n\n\
        \x20                                              hit    of\n\
        transactions                                     1    43      2%\n\
        start states                                     1    26      3%\n\
        ends of reads                                    1    55      1%\n\
        ends of writes                                   0    15      0%\n\
        snoop answers                                    0   148      0%\n\
        snoop answers with an update outstanding         0    42      0%\n\
        silent transitions                               1     4     25%  #####\n\
        rules in earnest                                 1    37      2%\n\
        situations                                       0    30      0%\n\
        all                                              5   400      1%\n\
        \nNever hit\n  transactions (42)\n    ACE ReadNoSnoop\n";
    assert!(rt; has_table(rt.alloc(), &[GIVES_UP], wanted, 2)?);
    Ok(())
}

/// Whether the table of this trace ends so.
fn table_ends(alloc: Global, trace: &str, listing: Listing, end: &str) -> Result<bool, Fail> {
    let totals = totals_of(alloc, &[trace])?;
    let mut text = Vec::new(alloc);
    push_table(alloc, &mut text, &totals, listing)?;
    let holds = text.as_slice().ends_with(end.as_bytes());
    Ok(holds)
}

#[test]
fn a_table_names_points(rt: HostRuntime) -> Result<(), Fail> {
    let more = "    a WriteUnique is merged into a passed dirty line\n\
        \x20   a read goes on while its line is stored to\n\
        \x20   .. and 18 more: acetool cover --all\n";
    let missing = "    memory opens with other than zeros\n\
        \x20   sixteen transactions of a port are outstanding\n";
    let counts = "           0  memory opens with other than zeros\n\
        \x20          0  sixteen transactions of a port are outstanding\n";
    assert!(rt; table_ends(rt.alloc(), GIVES_UP, Listing::Few, more)?);
    assert!(rt; table_ends(rt.alloc(), GIVES_UP, Listing::All, missing)?);
    assert!(rt; table_ends(rt.alloc(), GIVES_UP, Listing::Counts, counts)?);
    Ok(())
}

/// Whether the text tells counts of so many traces and events, and is what is written of them.
fn is_read(alloc: Global, text: &str, traces: u64, events: u64) -> Result<bool, Fail> {
    match read_counts(alloc, text.as_bytes()) {
        Ok(totals) => {
            let mut written = Vec::new(alloc);
            push_json(alloc, &mut written, &totals)?;
            let same = written.as_slice() == text.as_bytes();
            Ok(same && totals.traces == traces && totals.events == events)
        }
        Err(_) => Ok(false),
    }
}

/// Whether this line of the text is the first that tells no counts.
fn is_wrong(alloc: Global, text: &str, line: u64) -> bool {
    match read_counts(alloc, text.as_bytes()) {
        Ok(_) => false,
        Err(error) => error == CountsErr::Wrong { line },
    }
}

#[test]
fn counts_are_read_back(rt: HostRuntime) -> Result<(), Fail> {
    assert!(rt; is_read(rt.alloc(), GIVEN_UP, 2, 16)?);
    Ok(())
}

#[test]
fn other_texts_tell_no_counts(rt: HostRuntime) -> Result<(), Fail> {
    let other = "{\"format\":\"ace cover 2\",\"traces\":2,\"events\":16,\"hits\":{}}\n";
    for text in ["", "\n", "{}", other] {
        assert!(rt; is_wrong(rt.alloc(), text, 1));
    }
    Ok(())
}

/// Whether the counts of the text, added to themselves, are these.
fn is_sum(alloc: Global, text: &str, wanted: &str) -> Result<bool, Fail> {
    let Ok(mut totals) = read_counts(alloc, text.as_bytes()) else {
        return Ok(false);
    };
    let Ok(more) = read_counts(alloc, text.as_bytes()) else {
        return Ok(false);
    };
    totals.add_all(&more);
    let mut written = Vec::new(alloc);
    push_json(alloc, &mut written, &totals)?;
    let same = written.as_slice() == wanted.as_bytes();
    Ok(same)
}

const ONCE: &str = "{\"format\":\"ace cover 1\",\"traces\":1,\"events\":3,\"hits\":{\
    \"transactions\":{},\"start states\":{},\"ends of reads\":{},\"ends of writes\":{},\
    \"snoop answers\":{},\"snoop answers with an update outstanding\":{},\
    \"silent transitions\":{},\"rules in earnest\":{\"K40\":3},\
    \"situations\":{\"an operation fails\":1,\"an operation is skipped\":2}}}\n";

const TWICE: &str = "{\"format\":\"ace cover 1\",\"traces\":2,\"events\":6,\"hits\":{\
    \"transactions\":{},\"start states\":{},\"ends of reads\":{},\"ends of writes\":{},\
    \"snoop answers\":{},\"snoop answers with an update outstanding\":{},\
    \"silent transitions\":{},\"rules in earnest\":{\"K40\":6},\
    \"situations\":{\"an operation fails\":2,\"an operation is skipped\":4}}}\n";

#[test]
fn counts_are_added(rt: HostRuntime) -> Result<(), Fail> {
    assert!(rt; is_sum(rt.alloc(), ONCE, TWICE)?);
    Ok(())
}
