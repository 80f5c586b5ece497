// The top call.
ghost use Rattle.std.specs.Prelude.{◌≡◌, ◌≢◌, ◌⊎◌, ◌<◌, ◌≤◌, ◌-◌, ◌^◌, ℕ, [], codes, map, string_bytes, IfOk, OnErr};
ghost use Rattle.std.specs.Io.KnownBytes.{Appends};
ghost use Rattle.ace_io.specs.Faults.{HasCause, Rose};
ghost use Rattle.ace_call.specs.Output.{AppendsParts};
ghost use Rattle.ace_convert.specs.Output.{AppendsPart};
ghost use Rattle.ace_tool.specs.Answer.{Answers, AsksNothing, BreaksOff, Does, DoesPart, usage_for, usage_of};
ghost use Rattle.ace_tool.specs.Asked.{AsksCheck, CheckAsked};
ghost use Rattle.ace_tool.specs.ExplainAsked.{ExplainAsked};
ghost use Rattle.ace_tool.specs.Requests.{Asks, Check, Explain, Wish};
ghost use Rattle.ace_tool.specs.Told.{wish_of};

use crate::check::check_traces;
use crate::conclude::{conclude, note};
use crate::explain::explain_trace;
use crate::folder::Folder;
use crate::request::{Request, request_of};
use crate::texts::{check_help, explain_help, help, rule_help, version};
use ace_call::give_text;
use ace_io::{Failed, NoMemory, Sink, Source};
use std::alloc::Global;

/// Tells the text, and returns the status.
fn tell_text<K: Sink>(out: &mut K, text: &[u8]) -> Result<u8, Failed>
    ensures whole { IfOk result (λ status. (status ≡ 0)
        × Appends (K.held out.old) (K.held out.new) text.now) }
    ensures part { OnErr result (AppendsPart (K.held out.old) (K.held out.new) text.now) }
    ensures cause { HasCause (K.faults out.old) (K.faults out.new) result }
{
    match give_text(out, text) {
        Ok(()) => Ok(0),
        Err(failed) => Err(failed),
    }
}

/// Does what is asked, and returns the status.
fn answer<F: Folder, I: Source, K: Sink>(
    alloc: Global,
    request: Request<'_>,
    files: &F,
    input: &mut I,
    out: &mut K,
) -> Result<u8, Failed>
    ensures done { IfOk result (Does (F.holds files.now) (wish_of request.entry)
        (I.left input.old) (I.left input.new) (K.held out.old) (K.held out.new)) }
    ensures part { OnErr result (DoesPart (F.holds files.now) (wish_of request.entry)
        (I.left input.old) (I.left input.new) (K.held out.old) (K.held out.new)) }
    ensures untouched { ((check : CheckAsked) → wish_of request.entry ≢ Check check)
        → ((explain : ExplainAsked) → wish_of request.entry ≢ Explain explain)
        → input.new ≡ input.old }
    ensures no_write_fault { IfOk result (λ status. status ≢ 5) }
    ensures cause { HasCause (K.faults out.old) (K.faults out.new) result }
{
    match request {
        Request::Check { call } => check_traces(alloc, files, input, out, &call),
        Request::Explain { call } => explain_trace(alloc, files, input, out, &call),
        Request::Help => tell_text(out, help().as_bytes()),
        Request::HelpOfCheck => tell_text(out, check_help().as_bytes()),
        Request::HelpOfExplain => tell_text(out, explain_help().as_bytes()),
        Request::HelpOfRule => tell_text(out, rule_help().as_bytes()),
        Request::Version => tell_text(out, version().as_bytes()),
        Request::Pages { text } => tell_text(out, text.as_slice()),
    }
}

/// How the command of this name is used, or where there is none of it all.
fn usage_for(word: &str) -> &'static str
    ensures { result.now ≡ usage_for word.now }
{
    if word == "check" {
        check_help()
    } else if word == "explain" {
        explain_help()
    } else if word == "rule" {
        rule_help()
    } else {
        help()
    }
}

/// The usage that is told where the words are wrong.
fn usage_of(words: &[String]) -> &'static str
    ensures { result.now ≡ usage_of (map string_bytes words.now) }
{
    match words.first() {
        Some(word) => usage_for(word.as_str()),
        None => help(),
    }
}

/// Does what the words ask, and returns the status.
pub fn acetool<F: Folder, I: Source, K: Sink, E: Sink>(
    alloc: Global,
    words: &[String],
    files: &F,
    input: &mut I,
    out: &mut K,
    notes: &mut E,
) -> u8
    // Where no output failed, what the words ask was done, or they ask nothing and the usage
    // was told.
    ensures answer { result ≢ 5
        → Answers (F.holds files.now) (map string_bytes words.now) (I.left input.old)
        (I.left input.new)
        (K.held out.old) (K.held out.new) (E.held notes.old) (E.held notes.new) result }

    // Where an output failed, each has a front of what such an answer gives it, and then the
    // notes tell so if they can.
    ensures broken_off { result ≡ 5
        → BreaksOff (F.holds files.now) (map string_bytes words.now) (I.left input.old)
        (I.left input.new)
        (K.held out.old) (K.held out.new) (E.held notes.old) (E.held notes.new) }
    ensures told { result ≡ 5 → E.faults notes.old < 2 ^ 64 - 1 → E.faults notes.new
        ≡ E.faults notes.old
        → Appends (E.held notes.old) (E.held notes.new) (codes "write fault\n") }

    // A write fault is answered only where an output failed, and wherever one failed.
    ensures write_fault { result ≡ 5
        → Rose (K.faults out.old) (K.faults out.new)
        ⊎ Rose (E.faults notes.old) (E.faults notes.new) }
    ensures output_failed { (K.faults out.old < K.faults out.new)
        ⊎ (E.faults notes.old < E.faults notes.new)
        → result ≡ 5 }

    // Where the words ask neither for a check nor for an explanation, standard input isn't touched.
    ensures untouched { ((check : CheckAsked) → ¬ Asks (map string_bytes words.now) (Check check))
        → ((explain : ExplainAsked) → ¬ Asks (map string_bytes words.now) (Explain explain))
        → input.new ≡ input.old }
{
    match request_of(alloc, words) {
        Ok(Some(request)) => conclude(answer(alloc, request, files, input, out), notes),
        Ok(None) => note(notes, usage_of(words), 2),
        Err(NoMemory) => note(notes, "out of memory\n", 7),
    }
}

/// Tells that there was no memory for the words, where `acetool` can't be called for want of
/// them, and returns the status.
pub fn tell_no_memory<E: Sink>(notes: &mut E) -> u8
    ensures status { (result ≡ 7) ⊎ (result ≡ 5) }
    ensures given { result ≡ 7
        → Appends (E.held notes.old) (E.held notes.new) (codes "out of memory\n") }
    ensures part { result ≡ 5
        → AppendsParts (E.held notes.old) (E.held notes.new) (codes "out of memory\n")
        (codes "write fault\n") }
    ensures write_fault { result ≡ 5 → Rose (E.faults notes.old) (E.faults notes.new) }
    ensures output_failed { E.faults notes.old < E.faults notes.new → result ≡ 5 }
{
    note(notes, "out of memory\n", 7)
}
