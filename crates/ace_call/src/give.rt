// A text is given to an output, and that an output failed is told.
ghost use Rattle.std.specs.Prelude.{◌≡◌, ◌<◌, ◌≤◌, ◌-◌, ◌^◌, codes, OnOk, OnErr};
ghost use Rattle.std.specs.Io.KnownBytes.{Appends};
ghost use Rattle.ace_io.specs.Faults.{HasCause};
ghost use Rattle.ace_convert.specs.Output.{AppendsPart};

use ace_io::{Failed, Sink, give_all};

/// Gives the whole text.
///
/// # Errors
///
/// `Failed` where the sink failed: a front of the text was given.
#[tactic(auto, using(crate::proofs::Parts::fronts))]
pub fn give_text<K: Sink>(sink: &mut K, text: &[u8]) -> Result<(), Failed>
    ensures whole { OnOk result (Appends (K.held sink.old) (K.held sink.new) text.now) }
    ensures part { OnErr result (AppendsPart (K.held sink.old) (K.held sink.new) text.now) }
    ensures cause { HasCause (K.faults sink.old) (K.faults sink.new) result }
{
    if give_all(sink, text) < text.len() {
        return Err(Failed);
    }
    Ok(())
}

/// Tells that an output failed, once, and returns the status that says so.
#[tactic(auto, using(crate::proofs::Parts::parts))]
pub fn break_off<E: Sink>(notes: &mut E) -> u8
    ensures status { result ≡ 5 }
    ensures told { E.faults notes.old < 2 ^ 64 - 1 → E.faults notes.new ≡ E.faults notes.old
        → Appends (E.held notes.old) (E.held notes.new) (codes "write fault\n") }
    ensures later { E.faults notes.old ≤ E.faults notes.new }
    ensures part { AppendsPart (E.held notes.old) (E.held notes.new) (codes "write fault\n") }
{
    let _ = give_text(notes, b"write fault\n");
    5
}
