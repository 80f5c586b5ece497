// Writes a trace of a trace: its own text, as it reads, the same in version 2, its binary form, or
// the text of a binary one.
ghost use Rattle.std.specs.Prelude.{◌≡◌};
ghost use Rattle.ace_grammar.specs.Errors.{LeavesNothing};
ghost use Rattle.ace_top.specs.Answer.{CarriesOut, HasStatusCause};
ghost use Rattle.ace_top.specs.declared.words.Command.TheVariants as command;

use crate::answer::end_answer;
use crate::output::conclude;
use ace_call::break_off;
use ace_convert::{Conversion, convert};
use ace_io::{Sink, Source};
use std::alloc::Global;

/// Writes what is made of the trace that the input gives, and returns the status.
#[tactic(auto, using(crate::proofs::WrittenLemmas::written))]
pub fn write_out<S: Source, K: Sink, E: Sink>(
    alloc: Global,
    input: &mut S,
    out: &mut K,
    notes: &mut E,
    conversion: Conversion,
) -> u8
    ensures carried_out { CarriesOut (command.Convert conversion)
        (S.left input.old) (S.left input.new)
        result (K.held out.old) (K.held out.new)
        (E.held notes.old) (E.held notes.new) (E.faults notes.old) (E.faults notes.new) }
    ensures cause { HasStatusCause result (S.faults input.old) (S.faults input.new)
        (K.faults out.old) (K.faults out.new) (E.faults notes.old) (E.faults notes.new) }
    ensures whole { result ≡ 0 → LeavesNothing (S.left input.old) (S.left input.new) }
{
    match convert(alloc, input, out, conversion) {
        Ok(end) => conclude(out, notes, end_answer(end)),
        Err(_) => break_off(notes),
    }
}
