// The results of many traces as JUnit XML.
ghost use Rattle.std.specs.Prelude.{◌≡◌, ◌+◌, ◌++◌, decimal, flat_map, length, map, not, IfOk, OnOk};
ghost use Rattle.std.specs.List.{suffix_len};
ghost use Rattle.ace_batch.specs.Junit.{attribute, case_head, case_text, dotted, end_text, errors_of, errors_text, failures_name, failures_of, failures_text, fault_text, file_text, is_slash, junit_text, line_attribute, message_text, names_text, rest_text, some_class, start_text, suite_head, tag_of, tests_text, type_text};

use crate::counting::count_of;
use crate::entry::Entry;
use crate::escape::push_xml;
use crate::push::{push, push_number};
use ace_io::NoMemory;
use itoa::Buffer;
use std::alloc::Global;

/// Adds the text as the value of an attribute.
fn push_attribute(text: &mut Vec<u8>, given: &[u8]) -> Result<(), NoMemory>
    ensures { OnOk result (text.new.items ≡ text.old.items ++ attribute given.now) }
{
    push_xml(text, false, given)
}

/// Where the name of a file begins in its path: behind the last slash.
#[tactic(auto, using(crate::proofs::Slashes::slashes))]
fn base_start(path: &[u8]) -> usize
    ensures value { result + suffix_len (λ byte. not (is_slash byte)) path.now
        ≡ length path.now }
{
    let mut start = path.len();
    while start > 0 && path[start - 1] != b'/' {
        start -= 1;
    }
    start
}

/// The folder with dots for slashes.
#[tactic(auto, using(crate::proofs::Slashes::dot_step))]
fn dotted(alloc: Global, folder: &[u8]) -> Result<Vec<u8>, NoMemory>
    ensures { IfOk result (λ dots. dots.items ≡ map dotted folder.now) }
{
    let mut dots = Vec::new(alloc);
    for byte in folder {
        push(&mut dots, &[if *byte == b'/' { b'.' } else { *byte }])?;
    }
    Ok(dots)
}

/// Adds the name of the class: the folder, or where there is none `traces`.
#[tactic(auto, using(crate::proofs::Slashes::classes))]
fn push_class(alloc: Global, text: &mut Vec<u8>, folder: &[u8]) -> Result<(), NoMemory>
    ensures { OnOk result (text.new.items ≡ text.old.items ++ attribute (some_class folder.now)) }
{
    if folder.is_empty() {
        return push_attribute(text, b"traces");
    }
    let dots = dotted(alloc, folder)?;
    push_attribute(text, dots.as_slice())
}

/// Adds the names of the class and of the case.
#[tactic(auto, using(crate::proofs::Slashes::cuts), unfolding(crate::specs::Junit::names_text))]
fn push_names(alloc: Global, text: &mut Vec<u8>, path: &[u8]) -> Result<(), NoMemory>
    ensures { OnOk result (text.new.items ≡ text.old.items ++ names_text path.now) }
{
    let start = base_start(path);
    push_class(alloc, text, &path[..start.saturating_sub(1)])?;
    push(text, b"\" name=\"")?;
    push_attribute(text, &path[start..])
}

/// Adds the number of the line, if there is one.
fn push_line(text: &mut Vec<u8>, line: Option<u64>) -> Result<(), NoMemory>
    ensures { OnOk result (text.new.items ≡ text.old.items ++ line_attribute line) }
{
    match line {
        Some(line) => {
            push(text, b" line=\"")?;
            push_number(text, line)?;
            push(text, b"\"")
        }
        None => Ok(()),
    }
}

/// Adds the path, and the number of the line if there is one.
#[tactic(auto, unfolding(crate::specs::Junit::file_text))]
fn push_file(text: &mut Vec<u8>, entry: &Entry) -> Result<(), NoMemory>
    ensures { OnOk result (text.new.items ≡ text.old.items ++ file_text entry.now) }
{
    push(text, b"\" file=\"")?;
    push_attribute(text, entry.path.as_bytes())?;
    push(text, b"\"")?;
    push_line(text, entry.line)
}

/// Adds what a case begins with.
#[tactic(auto, unfolding(crate::specs::Junit::case_head))]
fn push_head(alloc: Global, text: &mut Vec<u8>, entry: &Entry) -> Result<(), NoMemory>
    ensures { OnOk result (text.new.items ≡ text.old.items ++ case_head entry.now) }
{
    push(text, b"<testcase classname=\"")?;
    push_names(alloc, text, entry.path.as_bytes())?;
    push_file(text, entry)
}

/// What a trace that isn't accepted is called.
fn tag_of(entry: &Entry) -> &'static [u8]
    ensures { result.now ≡ tag_of entry.now }
{
    if entry.outcome.is_failure() {
        b"failure"
    } else {
        b"error"
    }
}

/// Adds the signature of what is wrong.
#[tactic(auto, unfolding(crate::specs::Junit::type_text))]
fn push_type(text: &mut Vec<u8>, entry: &Entry) -> Result<(), NoMemory>
    ensures { OnOk result (text.new.items ≡ text.old.items ++ type_text entry.now) }
{
    push(text, b"<")?;
    push(text, tag_of(entry))?;
    push(text, b" type=\"")?;
    push_attribute(text, entry.signature.as_slice())
}

/// Adds what is wrong in words.
#[tactic(auto, unfolding(crate::specs::Junit::message_text))]
fn push_message(text: &mut Vec<u8>, entry: &Entry) -> Result<(), NoMemory>
    ensures { OnOk result (text.new.items ≡ text.old.items ++ message_text entry.now) }
{
    push(text, b"\" message=\"")?;
    push_attribute(text, entry.message.as_slice())?;
    push(text, b"\">")
}

/// Adds the end of what is wrong, and of the case.
#[tactic(auto, unfolding(crate::specs::Junit::end_text))]
fn push_end(text: &mut Vec<u8>, entry: &Entry) -> Result<(), NoMemory>
    ensures { OnOk result (text.new.items ≡ text.old.items ++ end_text entry.now) }
{
    push(text, b"</")?;
    push(text, tag_of(entry))?;
    push(text, b"></testcase>\n")
}

/// Adds what is wrong with the trace, and the end of its case.
#[tactic(auto, unfolding(crate::specs::Junit::fault_text))]
fn push_fault(text: &mut Vec<u8>, entry: &Entry) -> Result<(), NoMemory>
    ensures { OnOk result (text.new.items ≡ text.old.items ++ fault_text entry.now) }
{
    push_type(text, entry)?;
    push_message(text, entry)?;
    push_xml(text, true, entry.text.as_slice())?;
    push_end(text, entry)
}

/// Adds what follows the beginning of a case.
#[tactic(auto, unfolding(crate::specs::Junit::rest_text))]
fn push_rest(text: &mut Vec<u8>, entry: &Entry) -> Result<(), NoMemory>
    ensures { OnOk result (text.new.items ≡ text.old.items ++ rest_text entry.now) }
{
    if entry.outcome.status() == 0 {
        return push(text, b"/>\n");
    }
    push(text, b">")?;
    push_fault(text, entry)
}

/// Adds the case of the trace.
#[tactic(auto, unfolding(crate::specs::Junit::case_text))]
fn push_case(alloc: Global, text: &mut Vec<u8>, entry: &Entry) -> Result<(), NoMemory>
    ensures { OnOk result (text.new.items ≡ text.old.items ++ case_text entry.now) }
{
    push_head(alloc, text, entry)?;
    push_rest(text, entry)
}

/// Adds the case of each trace.
#[tactic(auto, using(crate::proofs::Cases::case_step))]
fn push_cases(alloc: Global, text: &mut Vec<u8>, entries: &[Entry]) -> Result<(), NoMemory>
    ensures { OnOk result (text.new.items ≡ text.old.items ++ flat_map case_text entries.now) }
{
    for entry in entries {
        push_case(alloc, text, entry)?;
    }
    Ok(())
}

/// How many traces are failures.
fn failures_of(entries: &[Entry]) -> u128
    ensures { result ≡ failures_of entries.now }
{
    count_of(1, entries) as u128 + (count_of(3, entries) as u128 + count_of(8, entries) as u128)
}

/// How many are errors.
fn errors_of(entries: &[Entry]) -> u128
    ensures { result ≡ errors_of entries.now }
{
    count_of(6, entries) as u128 + (count_of(4, entries) as u128 + count_of(7, entries) as u128)
}

/// Adds the digits of the number.
fn push_count(text: &mut Vec<u8>, count: u128) -> Result<(), NoMemory>
    ensures { OnOk result (text.new.items ≡ text.old.items ++ decimal count) }
{
    let mut digits = Buffer::new();
    push(text, digits.format(count).as_bytes())
}

/// What the text begins with.
#[tactic(auto, unfolding(crate::specs::Junit::start_text))]
fn start_text() -> &'static [u8]
    ensures { result.now ≡ start_text }
{
    b"<?xml version=\"1.0\" encoding=\"UTF-8\"?>\n<testsuites><testsuite name=\"acetool\" tests=\""
}

/// Adds how many traces there are.
#[tactic(auto, unfolding(crate::specs::Junit::tests_text))]
fn push_tests(text: &mut Vec<u8>, count: u64) -> Result<(), NoMemory>
    ensures { OnOk result (text.new.items ≡ text.old.items ++ tests_text count) }
{
    push(text, start_text())?;
    push_number(text, count)
}

/// The name of the attribute for the number of failures.
#[tactic(auto, unfolding(crate::specs::Junit::failures_name))]
fn failures_name() -> &'static [u8]
    ensures { result.now ≡ failures_name }
{
    b"\" failures=\""
}

/// Adds how many are failures.
#[tactic(auto, unfolding(crate::specs::Junit::failures_text))]
fn push_failures(text: &mut Vec<u8>, count: u128) -> Result<(), NoMemory>
    ensures { OnOk result (text.new.items ≡ text.old.items ++ failures_text count) }
{
    push(text, failures_name())?;
    push_count(text, count)
}

/// Adds how many are errors.
#[tactic(auto, unfolding(crate::specs::Junit::errors_text))]
fn push_errors(text: &mut Vec<u8>, count: u128) -> Result<(), NoMemory>
    ensures { OnOk result (text.new.items ≡ text.old.items ++ errors_text count) }
{
    push(text, b"\" errors=\"")?;
    push_count(text, count)?;
    push(text, b"\">\n")
}

/// Adds what the text begins with.
#[tactic(auto, unfolding(crate::specs::Junit::suite_head))]
fn push_suite(text: &mut Vec<u8>, entries: &[Entry]) -> Result<(), NoMemory>
    ensures { OnOk result (text.new.items ≡ text.old.items ++ suite_head entries.now) }
{
    push_tests(text, entries.len() as u64)?;
    push_failures(text, failures_of(entries))?;
    push_errors(text, errors_of(entries))
}

/// Adds the results as JUnit XML: one suite, with a case for each trace.
///
/// # Errors
///
/// `NoMemory` where there is none for the longer text.
#[tactic(auto, unfolding(crate::specs::Junit::junit_text))]
pub fn push_junit(alloc: Global, text: &mut Vec<u8>, entries: &[Entry]) -> Result<(), NoMemory>
    ensures { OnOk result (text.new.items ≡ text.old.items ++ junit_text entries.now) }
{
    push_suite(text, entries)?;
    push_cases(alloc, text, entries)?;
    push(text, b"</testsuite></testsuites>\n")
}
