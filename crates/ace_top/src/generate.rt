// Writes the script that is made from a number.
ghost use Rattle.std.specs.Prelude.{◌≡◌, ◌≢◌, ◌⊎◌, ℕ, List, Option, OnOk, OnErr};
ghost use Rattle.std.specs.Io.KnownBytes.{Appends};
ghost use Rattle.ace_io.specs.Faults.{HasCause, Rose};
ghost use Rattle.ace_script.specs.Text.{plan_text};
ghost use Rattle.ace_top.specs.Answer.{CarriesOut};
ghost use Rattle.ace_convert.specs.Output.{AppendsPart};
ghost use Rattle.ace_top.specs.declared.words.Command.TheVariants as command;

use crate::answer::Answer;
use crate::output::conclude;
use ace_call::break_off;
use ace_io::Sink;
use ace_script::Plan;
use ace_writer::WriteErr;
use std::alloc::Global;

/// Puts the text of a plan of which there is no more use.
#[tactic(auto, using(crate::proofs::GenerateLemmas::scripts))]
fn put_plan<K: Sink>(plan: Plan, sink: &mut K) -> Result<(), WriteErr>
    ensures whole { OnOk result (Appends (K.held sink.old) (K.held sink.new)
        (plan_text plan.plan)) }
    ensures part { OnErr result (AppendsPart (K.held sink.old) (K.held sink.new)
        (plan_text plan.plan)) }
    ensures cause { HasCause (K.faults sink.old) (K.faults sink.new) result }
{
    plan.put(sink)
}

/// Writes the script that is made from this number, and returns the status. No input is read.
pub fn write_script<K: Sink, E: Sink>(alloc: Global, number: u64, out: &mut K, notes: &mut E) -> u8
    ensures carried_out { (input : Option (List ℕ))
        → CarriesOut (command.Gen number) input input result (K.held out.old) (K.held out.new)
        (E.held notes.old) (E.held notes.new) (E.faults notes.old) (E.faults notes.new) }
    ensures write_fault { result ≡ 5 → Rose (K.faults out.old) (K.faults out.new)
        ⊎ Rose (E.faults notes.old) (E.faults notes.new) }
    ensures out_steady { result ≢ 5 → K.faults out.new ≡ K.faults out.old }
    ensures notes_steady { result ≢ 5 → E.faults notes.new ≡ E.faults notes.old }
    ensures status { (result ≡ 0) ⊎ (result ≡ 5) ⊎ (result ≡ 7) }
{
    match Plan::generate(alloc, number) {
        Ok(plan) => match put_plan(plan, out) {
            Ok(()) => conclude(out, notes, Answer::Generated),
            Err(_) => break_off(notes),
        },
        Err(_) => conclude(out, notes, Answer::NoMemory),
    }
}
