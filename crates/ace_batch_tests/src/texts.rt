// What is told of some traces.
use crate::entries::results;
use ace_batch::{Entry, Shard, push_junit, push_results, status_of_all, told_text};
use ace_io::NoMemory;
use std::alloc::Global;

/// Paths, whether accepted ones have no lines, how many others were not looked at, and what is told.
type Row = (&'static [&'static str], bool, usize, &'static str);

const TOLD: [Row; 8] = [
    (
        &["good"],
        false,
        0,
        "ok    good           accepted 123456\n\n1 trace: 1 accepted; 123,456 events\n",
    ),
    (
        &["good"],
        true,
        0,
        "\n1 trace: 1 accepted; 123,456 events\n",
    ),
    (
        &["open", "good"],
        true,
        0,
        "\n2 traces: 2 accepted; 123,468 events\n\n1 accepted trace ends with transactions outstanding\n",
    ),
    (
        &["open", "none", "open"],
        true,
        0,
        "ERROR none           No such file or directory

3 traces: 2 accepted, 1 unreadable; 24 events

1 distinct failure, most frequent first
    1  cannot be opened             none
       No such file or directory

2 accepted traces end with transactions outstanding
",
    ),
    (
        &["late", "good", "early", "nightly/bad", "none"],
        true,
        0,
        "FAIL  late:72           K18c: a transfer too few
FAIL  early:9           K18c: a transfer too many
BAD   nightly/bad:3     F5: a field is wrong
ERROR none              No such file or directory

5 traces: 1 accepted, 2 refused, 1 malformed, 1 unreadable; 123,533 events

3 distinct failures, most frequent first
    2  K18c                         early:9
       a transfer too many
    1  F5                           nightly/bad:3
       a field is wrong
    1  cannot be opened             none
       No such file or directory
",
    ),
    (
        &["good", "early"],
        true,
        1,
        "FAIL  early:9        K18c: a transfer too many

2 traces: 1 accepted, 1 refused; 123,463 events
1 trace was not looked at

1 distinct failure, most frequent first
    1  K18c                         early:9
       a transfer too many
",
    ),
    (
        &["none"],
        false,
        4999,
        "ERROR none           No such file or directory

1 trace: 0 accepted, 1 unreadable; 0 events
4999 traces were not looked at

1 distinct failure, most frequent first
    1  cannot be opened             none
       No such file or directory
",
    ),
    (
        &["cut", "long", "full"],
        false,
        0,
        "CUT   cut            unfinished: no END
LIMIT long           limit events
ERROR full           out of memory

3 traces: 0 accepted, 1 unfinished, 1 beyond a limit, 1 out of memory; 0 events

3 distinct failures, most frequent first
    1  unfinished                   cut
       unfinished: no END
    1  limit events                 long
       limit events
    1  out of memory                full
       out of memory
",
    ),
];

/// The results of these traces are told so.
fn is_told(alloc: Global, row: &Row) -> bool {
    let Ok(entries) = results(alloc, row.0) else {
        return false;
    };
    match told_text(alloc, row.1, row.2, entries.as_slice()) {
        Ok(text) => text.as_slice() == row.3.as_bytes(),
        Err(NoMemory) => false,
    }
}

#[test]
fn results_are_told(rt: HostRuntime) {
    for row in &TOLD {
        assert!(rt; is_told(rt.alloc(), row));
    }
}

const STATUSES: [(&[&str], u8); 9] = [
    (&[], 2),
    (&["good"], 0),
    (&["good", "full"], 7),
    (&["full", "none"], 4),
    (&["none", "long", "full"], 6),
    (&["long", "cut"], 8),
    (&["cut", "nightly/bad"], 3),
    (&["nightly/bad", "late", "good"], 1),
    (&["full", "none", "long", "cut", "nightly/bad", "load"], 1),
];

/// The status of these traces.
fn status_of(alloc: Global, paths: &[&str]) -> Result<u8, NoMemory> {
    let entries = results(alloc, paths)?;
    Ok(status_of_all(entries.as_slice()))
}

#[test]
fn statuses_come_in_their_order(rt: HostRuntime) {
    for (paths, status) in &STATUSES {
        assert!(rt; status_of(rt.alloc(), paths) == Ok(*status));
    }
}

const JUNIT: &str = "<?xml version=\"1.0\" encoding=\"UTF-8\"?>
<testsuites><testsuite name=\"acetool\" tests=\"4\" failures=\"2\" errors=\"1\">
<testcase classname=\"traces\" name=\"good\" file=\"good\"/>
<testcase classname=\"traces\" name=\"load\" file=\"load\" line=\"11\"><failure type=\"K31a\" message=\"another word &lt;&amp;&gt; &quot;than&quot; it has?\">another word &lt;&amp;&gt; &quot;than&quot; it has?</failure></testcase>
<testcase classname=\"nightly\" name=\"bad\" file=\"nightly/bad\" line=\"3\"><failure type=\"F5\" message=\"a field is wrong\">a field is wrong</failure></testcase>
<testcase classname=\"a.b\" name=\"\u{fffd}?\" file=\"a/b/\u{fffd}?\"><error type=\"cannot be opened\" message=\"No such file or directory\">No such file or directory</error></testcase>
</testsuite></testsuites>
";

const JSON: &str = "{\"format\":\"ace batch 1\",\"shard\":\"1/1\",\"traces\":4}
{\"file\":\"good\",\"verdict\":\"accepted\",\"events\":123456,\"outstanding\":0,\"line\":null,\"signature\":\"\",\"message\":\"accepted 123456\",\"text\":\"accepted 123456\"}
{\"file\":\"load\",\"verdict\":\"refused\",\"events\":9,\"outstanding\":null,\"line\":11,\"signature\":\"K31a\",\"message\":\"another word <&> \\\"than\\\" it has\\u0009\",\"text\":\"another word <&> \\\"than\\\" it has\\u0009\"}
{\"file\":\"nightly/bad\",\"verdict\":\"malformed\",\"events\":0,\"outstanding\":null,\"line\":3,\"signature\":\"F5\",\"message\":\"a field is wrong\",\"text\":\"a field is wrong\"}
{\"file\":\"a/b/\u{fffe}\\n\",\"verdict\":\"unreadable\",\"events\":0,\"outstanding\":null,\"line\":null,\"signature\":\"cannot be opened\",\"message\":\"No such file or directory\",\"text\":\"No such file or directory\"}
{\"end\":4}
";

const HOSTILE: [&str; 4] = ["good", "load", "nightly/bad", "a/b/\u{fffe}\n"];

/// The results of hostile traces as JUnit XML.
fn junit_of(alloc: Global, entries: &[Entry]) -> Result<Vec<u8>, NoMemory> {
    let mut text = Vec::new(alloc);
    push_junit(alloc, &mut text, entries)?;
    Ok(text)
}

/// The same as JSON.
fn json_of(alloc: Global, entries: &[Entry]) -> Result<Vec<u8>, NoMemory> {
    let mut text = Vec::new(alloc);
    push_results(&mut text, &Shard::whole(), 0, entries)?;
    Ok(text)
}

/// It is this text.
fn is_text(text: &Result<Vec<u8>, NoMemory>, wanted: &str) -> bool {
    match text {
        Ok(text) => text.as_slice() == wanted.as_bytes(),
        Err(NoMemory) => false,
    }
}

/// Names and messages with characters that have a meaning are told as they are.
fn hostile_texts_stand(alloc: Global) -> bool {
    match results(alloc, &HOSTILE) {
        Ok(entries) => {
            is_text(&junit_of(alloc, entries.as_slice()), JUNIT)
                && is_text(&json_of(alloc, entries.as_slice()), JSON)
        }
        Err(NoMemory) => false,
    }
}

#[test]
fn results_stand_in_files(rt: HostRuntime) {
    assert!(rt; hostile_texts_stand(rt.alloc()));
}
