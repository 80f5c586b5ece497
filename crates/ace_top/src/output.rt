// The texts of an answer on the two outputs.
ghost use Rattle.std.specs.Prelude.{◌≡◌, ◌≢◌, ◌<◌, ◌≤◌, ◌-◌, ◌^◌, ◌⊎◌, codes, OnOk, OnErr};
ghost use Rattle.std.specs.Io.KnownBytes.{Appends, Keeps};
ghost use Rattle.ace_io.specs.Faults.{Rose};
ghost use Rattle.ace_convert.specs.Output.{AppendsPart};
ghost use Rattle.ace_call.specs.Output.{AppendsParts};
ghost use Rattle.ace_top.specs.Texts.{status_of, out_text_of, notes_text_of};

use crate::answer::{Answer, notes_text, out_text, status_of};
use ace_call::{break_off, give_text};
use ace_io::{Failed, Sink};

/// Gives the texts of the answer.
#[tactic(auto, using(ace_call::proofs::Parts::parts))]
fn give_texts<K: Sink, E: Sink>(out: &mut K, notes: &mut E, answer: Answer) -> Result<(), Failed>
    ensures out_whole { OnOk result (Appends (K.held out.old) (K.held out.new)
        (out_text_of answer)) }
    ensures notes_whole { OnOk result (Appends (E.held notes.old)
        (E.held notes.new) (notes_text_of answer)) }
    ensures out_part { OnErr result (AppendsPart (K.held out.old)
        (K.held out.new) (out_text_of answer)) }
    ensures notes_part { OnErr result (AppendsPart (E.held notes.old)
        (E.held notes.new) (notes_text_of answer)) }
    ensures out_steady { OnOk result (K.faults out.new ≡ K.faults out.old) }
    ensures notes_steady { OnOk result (E.faults notes.new ≡ E.faults notes.old) }
    ensures cause { OnErr result
        (Rose (K.faults out.old) (K.faults out.new)
        ⊎ Rose (E.faults notes.old) (E.faults notes.new)) }
    ensures out_later { K.faults out.old ≤ K.faults out.new }
    ensures notes_later { E.faults notes.old ≤ E.faults notes.new }
    ensures notes_kept { OnErr result (E.faults notes.old < 2 ^ 64 - 1
        → E.faults notes.new ≡ E.faults notes.old
        → Keeps (E.held notes.old) (E.held notes.new)) }
{
    match give_text(out, out_text(answer).as_bytes()) {
        Ok(()) => give_text(notes, notes_text(answer).as_bytes()),
        Err(failed) => Err(failed),
    }
}

/// Gives the texts of the answer, and returns its status. Where an output fails it tells so, once,
/// and returns 5.
#[tactic(auto, using(ace_call::proofs::Parts::parts))]
pub fn conclude<K: Sink, E: Sink>(out: &mut K, notes: &mut E, answer: Answer) -> u8
    ensures status { result ≢ 5 → result ≡ status_of answer }
    ensures out_given { result ≢ 5 → Appends (K.held out.old) (K.held out.new)
        (out_text_of answer) }
    ensures notes_given { result ≢ 5
        → Appends (E.held notes.old) (E.held notes.new) (notes_text_of answer) }
    ensures out_steady { result ≢ 5 → K.faults out.new ≡ K.faults out.old }
    ensures notes_steady { result ≢ 5 → E.faults notes.new ≡ E.faults notes.old }
    ensures fault { result ≡ 5 → Rose (K.faults out.old) (K.faults out.new)
        ⊎ Rose (E.faults notes.old) (E.faults notes.new) }
    ensures out_part { AppendsPart (K.held out.old) (K.held out.new) (out_text_of answer) }
    ensures notes_told { result ≡ 5 → E.faults notes.old < 2 ^ 64 - 1
        → E.faults notes.new ≡ E.faults notes.old
        → Appends (E.held notes.old) (E.held notes.new) (codes "write fault\n") }
    ensures notes_part { result ≡ 5
        → AppendsParts (E.held notes.old) (E.held notes.new) (notes_text_of answer) (codes "write fault\n") }
{
    match give_texts(out, notes, answer) {
        Ok(()) => status_of(answer),
        Err(_) => break_off(notes),
    }
}
