// Writes a script that is made from a number.
ghost use Rattle.std.specs.Prelude.{◌≡◌, ◌≢◌, ◌⊎◌, codes, map, string_bytes, OnOk};
ghost use Rattle.std.specs.Io.KnownBytes.{Appends};
ghost use Rattle.ace_io.specs.Faults.{HasCause, Rose};
ghost use Rattle.ace_script.specs.Text.{plan_text};
ghost use Rattle.ace_cover_script.specs.Covering.{covering};
ghost use Rattle.ace_cover_script.specs.Generates.{Generates, NotesOnly, Tells};

use crate::plan::cover_plan;
use crate::wish::{Wish, gen_help, wish_of};
use ace_call::{break_off, give_text};
use ace_io::Sink;
use ace_script::Plan;
use ace_writer::WriteErr;
use std::alloc::Global;

/// Puts the text of a plan of which there is no more use.
fn put_plan<K: Sink>(plan: Plan, out: &mut K) -> Result<(), WriteErr>
    ensures whole { OnOk result (Appends (K.held out.old) (K.held out.new) (plan_text plan.plan)) }
    ensures cause { HasCause (K.faults out.old) (K.faults out.new) result }
{
    plan.put(out)
}

/// Tells the text on this output, and returns the status, which isn't 5; where it failed that is
/// told on the notes, and it is 5.
fn tell<K: Sink, E: Sink>(out: &mut K, notes: &mut E, text: &str) -> u8
    ensures given { result ≢ 5 → Appends (K.held out.old) (K.held out.new) text.now }
    ensures status { result ≢ 5 → result ≡ 0 }
    ensures silent { result ≢ 5 → notes.new ≡ notes.old }
    ensures fault { result ≡ 5 → Rose (K.faults out.old) (K.faults out.new) }
    ensures steady { result ≢ 5 → K.faults out.new ≡ K.faults out.old }
{
    match give_text(out, text.as_bytes()) {
        Ok(()) => 0,
        Err(_) => break_off(notes),
    }
}

/// Notes the text, and returns the status, which isn't 5; where the notes failed it is 5.
fn note<E: Sink>(notes: &mut E, text: &str, status: u8) -> u8
    requires { status ≢ 5 }
    ensures given { result ≢ 5 → Appends (E.held notes.old) (E.held notes.new) text.now }
    ensures status { result ≢ 5 → result ≡ status }
    ensures fault { result ≡ 5 → Rose (E.faults notes.old) (E.faults notes.new) }
    ensures steady { result ≢ 5 → E.faults notes.new ≡ E.faults notes.old }
{
    match give_text(notes, text.as_bytes()) {
        Ok(()) => status,
        Err(_) => break_off(notes),
    }
}

/// Writes the script that is made from the number, and returns the status.
fn write_script<K: Sink, E: Sink>(alloc: Global, number: u64, out: &mut K, notes: &mut E) -> u8
    ensures answer { result ≢ 5
        → Tells (plan_text (covering number)) (K.held out.old) (K.held out.new) (E.held notes.old)
        (E.held notes.new) result
        ⊎ NotesOnly (codes "out of memory\n") 7 (K.held out.old) (K.held out.new)
        (E.held notes.old) (E.held notes.new) result }
    ensures write_fault { result ≡ 5 → Rose (K.faults out.old) (K.faults out.new)
        ⊎ Rose (E.faults notes.old) (E.faults notes.new) }
    ensures out_steady { result ≢ 5 → K.faults out.new ≡ K.faults out.old }
    ensures notes_steady { result ≢ 5 → E.faults notes.new ≡ E.faults notes.old }
{
    match cover_plan(alloc, number) {
        Ok(plan) => match put_plan(plan, out) {
            Ok(()) => 0,
            Err(_) => break_off(notes),
        },
        Err(_) => note(notes, "out of memory\n", 7),
    }
}

/// Does what the words behind `gen` ask, and returns the status.
pub fn generate<K: Sink, E: Sink>(alloc: Global, words: &[String], out: &mut K, notes: &mut E) -> u8
    // Where no output failed, what the words ask was told, or they ask nothing and the usage was
    // noted.
    ensures answer { result ≢ 5 → Generates (map string_bytes words.now) (K.held out.old)
        (K.held out.new) (E.held notes.old) (E.held notes.new) result }

    // A write fault is answered only where an output failed, and wherever one failed.
    ensures write_fault { result ≡ 5 → Rose (K.faults out.old) (K.faults out.new)
        ⊎ Rose (E.faults notes.old) (E.faults notes.new) }
    ensures out_steady { result ≢ 5 → K.faults out.new ≡ K.faults out.old }
    ensures notes_steady { result ≢ 5 → E.faults notes.new ≡ E.faults notes.old }
{
    match wish_of(words) {
        Some(Wish::Help) => tell(out, notes, gen_help()),
        Some(Wish::Script { number }) => write_script(alloc, number, out, notes),
        None => note(notes, gen_help(), 2),
    }
}
