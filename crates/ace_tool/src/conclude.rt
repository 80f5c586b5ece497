// How a call of the program ends.
ghost use Rattle.std.specs.Prelude.{◌≡◌, ◌≢◌, ◌<◌, ◌≤◌, ◌-◌, ◌^◌, [], codes, IfOk, OnErr, OnOk};
ghost use Rattle.std.specs.Io.KnownBytes.{Appends};
ghost use Rattle.ace_io.specs.Faults.{Rose};
ghost use Rattle.ace_call.specs.Output.{AppendsParts};
ghost use Rattle.ace_convert.specs.Output.{AppendsPart};

use ace_call::{break_off, give_text};
use ace_io::{Failed, Sink};

/// The status of what was done, which isn't 5; where the standard output failed it tells so,
/// and it is 5.
pub(crate) fn conclude<E: Sink>(done: Result<u8, Failed>, notes: &mut E) -> u8
    requires { IfOk done (λ status. status ≢ 5) }
    ensures status { IfOk done (λ status. result ≡ status) }
    ensures silent { OnOk done (notes.new ≡ notes.old) }
    ensures failed { OnErr done (result ≡ 5) }
    ensures part { OnErr done (AppendsPart (E.held notes.old) (E.held notes.new)
        (codes "write fault\n")) }
    ensures told { result ≡ 5 → E.faults notes.old < 2 ^ 64 - 1 → E.faults notes.new
        ≡ E.faults notes.old
        → Appends (E.held notes.old) (E.held notes.new) (codes "write fault\n") }
    ensures later { E.faults notes.old ≤ E.faults notes.new }
{
    match done {
        Ok(status) => status,
        Err(_) => break_off(notes),
    }
}

/// Tells the text on the notes, and returns the status, which isn't 5; where they failed it is 5.
#[tactic(auto, using(ace_call::proofs::Parts::parts))]
pub(crate) fn note<E: Sink>(notes: &mut E, text: &str, status: u8) -> u8
    requires { status ≢ 5 }
    ensures status { result ≢ 5 → result ≡ status }
    ensures given { result ≢ 5 → Appends (E.held notes.old) (E.held notes.new) text.now }
    ensures steady { result ≢ 5 → E.faults notes.new ≡ E.faults notes.old }
    ensures fault { result ≡ 5 → Rose (E.faults notes.old) (E.faults notes.new) }
    ensures part { result ≡ 5
        → AppendsParts (E.held notes.old) (E.held notes.new) text.now (codes "write fault\n") }
    ensures told { result ≡ 5 → E.faults notes.old < 2 ^ 64 - 1 → E.faults notes.new
        ≡ E.faults notes.old
        → Appends (E.held notes.old) (E.held notes.new) (codes "write fault\n") }
{
    match give_text(notes, text.as_bytes()) {
        Ok(()) => status,
        Err(_) => break_off(notes),
    }
}
