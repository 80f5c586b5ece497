//! The program `ace`: the top call over the words of the command line and the standard streams.
#![tactic(auto)]

use ace_call::read_words;
use ace_io::{Free, StdSink, StdSource};
use ace_retry::Patient;
use ace_top::{ace, tell_no_memory};
use std::process::ExitCode;

fn main(rt: HostRuntime) -> ExitCode {
    let alloc = rt.alloc();
    let mut input = StdSource::new(Patient::new(rt.stdin()));
    let mut out = StdSink::new(Patient::new(rt.stdout()));
    let mut notes = StdSink::new(Patient::new(rt.stderr()));
    let status = match read_words(&rt) {
        Some(words) => ace(
            &rt,
            alloc,
            words.as_slice(),
            &mut input,
            &mut out,
            &mut notes,
            &Free,
        ),
        None => tell_no_memory(&mut out, &mut notes),
    };
    ExitCode::from(status)
}
