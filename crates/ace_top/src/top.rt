// The top call: all that the program does.
ghost use Rattle.std.specs.Prelude.{◌≡◌, ◌≢◌, ◌<◌, ◌≤◌, ◌-◌, ◌^◌, ◌⊎◌, [], IfSome, codes};
ghost use Rattle.std.specs.Io.KnownBytes.{Appends, IsAtEnd};
ghost use Rattle.ace_io.specs.Faults.{Rose};
ghost use Rattle.ace_grammar.specs.Errors.{LeavesNothing};
ghost use Rattle.ace_verdict.specs.Verdict.{ReadsSound};
ghost use Rattle.ace_top.specs.Words.{IsCheck, IsSomeRun, IsSomeAccount, IsTraceCommand, IsReadingCommand, IsCommand};
ghost use Rattle.ace_top.specs.Answer.{AnswersWords, BreaksOffWords, CarriesOut, HasStatusCause};
ghost use Rattle.ace_top.specs.Command.{Judges, ReadsInput, ReadsScript, ReadsTrace};
ghost use Rattle.ace_call.specs.Output.{AppendsParts};

use crate::answer::Answer;
use crate::check::{tell_account, tell_verdict};
use crate::generate::write_script;
use crate::output::conclude;
use crate::run::run_script;
use crate::show::write_out;
use crate::trial::tell_trial;
use crate::words::{Command, command_of};
use ace_io::{Gate, Sink, Source};
use std::alloc::Global;
use std::sync::Wait;
use std::thread::Threads;

/// Does what the words ask, and returns the status.
#[tactic(auto, using(crate::proofs::WordsAnswered::words_answered))]
pub fn ace<R: Threads + Wait + Sync, S: Source, K: Sink, E: Sink, G: Gate + Sync>(
    rt: &R,
    alloc: Global,
    words: &[String],
    input: &mut S,
    out: &mut K,
    notes: &mut E,
    gate: &G,
) -> u8
    // Where no output failed, the status and the texts are those of an answer to the words and the
    // input. So a run writes the trace of a run of the whole script, however its threads come to
    // their turns; with a filter each of its snoops of a line goes to a port that may hold it.
    ensures answer { result ≢ 5 → AnswersWords words.now (S.left input.old)
        (S.left input.new) result
        (K.held out.old) (K.held out.new) (E.held notes.old) (E.held notes.new) }

    // Where the status of a command that reads a trace is 0, the input was read to its end: where
    // its bytes were told, they still are, and none is left. Where it is that of `check`, `report`
    // or `order`, the trace has all that acceptance promises: it is coherent, its exclusive stores
    // are exclusive, its barriers order, and its Syncs wait for all.
    ensures whole { IsTraceCommand words.now → result ≡ 0
        → LeavesNothing (S.left input.old) (S.left input.new) }
    ensures script_whole { IsSomeRun words.now → result ≡ 0 → IsAtEnd (S.left input.new) }
    ensures sound { IsCheck words.now ⊎ IsSomeAccount words.now → result ≡ 0
        → IfSome (S.left input.old) ReadsSound }

    // Where an output failed, each has a front of what such an answer gives it, and then the notes
    // tell so if they can.
    ensures broken_off { result ≡ 5 → BreaksOffWords words.now (S.left input.old) (S.left input.new)
        (K.held out.old) (K.held out.new) (E.held notes.old) (E.held notes.new) }
    ensures told { result ≡ 5 → E.faults notes.old < 2 ^ 64 - 1
        → E.faults notes.new ≡ E.faults notes.old
        → Appends (E.held notes.old) (E.held notes.new) (codes "write fault\n") }

    // A read fault is answered only where the input failed, and where it failed little else is
    // answered.
    ensures read_fault { result ≡ 4 → Rose (S.faults input.old) (S.faults input.new) }
    ensures input_failed { S.faults input.old < S.faults input.new
        → (result ≡ 4) ⊎ (result ≡ 5) ⊎ (result ≡ 7) }

    // A write fault is answered only where an output failed, and wherever one failed.
    ensures write_fault { result ≡ 5
        → Rose (K.faults out.old) (K.faults out.new)
        ⊎ Rose (E.faults notes.old) (E.faults notes.new) }
    ensures output_failed { (K.faults out.old < K.faults out.new)
        ⊎ (E.faults notes.old < E.faults notes.new)
        → result ≡ 5 }

    // The usage is told exactly where the words name no command. Where they name none that reads
    // it, the input isn't touched.
    ensures usage { result ≡ 2 → ¬ IsCommand words.now }
    ensures no_command { ¬ IsCommand words.now → (result ≡ 2) ⊎ (result ≡ 5) ⊎ (result ≡ 7) }
    ensures untouched { ¬ IsReadingCommand words.now → input.new ≡ input.old }
    ensures status { result ≤ 7 }
{
    let Ok(command) = command_of(alloc, words) else {
        return conclude(out, notes, Answer::NoMemory);
    };
    match command {
        Some(command) => carry_out(rt, alloc, command, input, out, notes, gate),
        None => conclude(out, notes, Answer::Usage),
    }
}

/// Carries out the command, and returns the status.
#[tactic(auto, using(crate::proofs::CarriedOut::carried_out))]
fn carry_out<R: Threads + Wait + Sync, S: Source, K: Sink, E: Sink, G: Gate + Sync>(
    rt: &R,
    alloc: Global,
    command: Command,
    input: &mut S,
    out: &mut K,
    notes: &mut E,
    gate: &G,
) -> u8
    ensures carried_out { CarriesOut command (S.left input.old) (S.left input.new) result
        (K.held out.old) (K.held out.new)
        (E.held notes.old) (E.held notes.new) (E.faults notes.old) (E.faults notes.new) }
    ensures cause { HasStatusCause result (S.faults input.old) (S.faults input.new)
        (K.faults out.old) (K.faults out.new) (E.faults notes.old) (E.faults notes.new) }
    ensures whole { ReadsTrace command → result ≡ 0
        → LeavesNothing (S.left input.old) (S.left input.new) }
    ensures script_whole { ReadsScript command → result ≡ 0 → IsAtEnd (S.left input.new) }
    ensures sound { Judges command → result ≡ 0 → IfSome (S.left input.old) ReadsSound }
    ensures untouched { ¬ ReadsInput command → input.new ≡ input.old }
{
    match command {
        Command::Check => tell_verdict(alloc, input, out, notes),
        Command::Account { account } => tell_account(alloc, input, out, notes, account),
        Command::Convert { conversion } => write_out(alloc, input, out, notes, conversion),
        Command::Run { snooping } => run_script(rt, alloc, input, out, notes, gate, snooping),
        Command::Gen { number } => write_script(alloc, number, out, notes),
        Command::Trial { number } => tell_trial(alloc, number, out, notes),
    }
}

/// Tells that there was no memory for the words, where `ace` can't be called for want of them, and
/// returns the status.
pub fn tell_no_memory<K: Sink, E: Sink>(out: &mut K, notes: &mut E) -> u8
    // The standard output gets nothing, and the notes get the text, or where an output failed a
    // front of it, and what `ace` tells then.
    ensures status { (result ≡ 7) ⊎ (result ≡ 5) }
    ensures nothing { Appends (K.held out.old) (K.held out.new) [] }
    ensures told { result ≡ 7 → Appends (E.held notes.old) (E.held notes.new)
        (codes "out of memory\n") }
    ensures broken_off { result ≡ 5
        → AppendsParts (E.held notes.old) (E.held notes.new) (codes "out of memory\n") (codes "write fault\n") }
    ensures fault_told { result ≡ 5 → E.faults notes.old < 2 ^ 64 - 1
        → E.faults notes.new ≡ E.faults notes.old
        → Appends (E.held notes.old) (E.held notes.new) (codes "write fault\n") }

    // A write fault is answered exactly where an output failed.
    ensures write_fault { result ≡ 5
        → Rose (K.faults out.old) (K.faults out.new)
        ⊎ Rose (E.faults notes.old) (E.faults notes.new) }
    ensures output_failed { (K.faults out.old < K.faults out.new)
        ⊎ (E.faults notes.old < E.faults notes.new)
        → result ≡ 5 }
{
    conclude(out, notes, Answer::NoMemory)
}
