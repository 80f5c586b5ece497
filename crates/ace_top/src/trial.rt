// Tries the script that is made from a number.
ghost use Rattle.std.specs.Prelude.{◌≡◌, ◌≢◌, ◌⊎◌, ℕ, List, Option, length, IfOk};
ghost use Rattle.ace_io.specs.Faults.{Rose};
ghost use Rattle.ace_model.specs.Trace.{Trace};
ghost use Rattle.ace_script.specs.Generated.{generated};
ghost use Rattle.ace_whole_runs.specs.Runs.{IsRunOf};
ghost use Rattle.ace_top.specs.Answer.{CarriesOut};
ghost use Rattle.ace_top.specs.declared.words.Command.TheVariants as command;

use crate::answer::Answer;
use crate::output::conclude;
use crate::run::is_run;
use ace_fabric::System;
use ace_io::{NoMemory, Sink};
use ace_script::Plan;
use std::alloc::Global;

/// How many events the trace of a run has, of which there is no more use.
fn events_of(system: System) -> u64
    ensures { result ≡ length system.past }
{
    let events = system.trace().len() as u64;
    drop(system);
    events
}

/// Runs the script that is made from this number, without threads: how many events the trace of the
/// run has.
fn try_script(alloc: Global, number: u64) -> Result<u64, NoMemory>
    ensures { IfOk result (λ events. (past : Trace) × IsRunOf (generated number) past
        × (events ≡ length past)) }
{
    let plan = Plan::generate(alloc, number)?;
    let mut system = System::start(alloc, &plan)?;
    system.drain();
    is_run(&system);
    Ok(events_of(system))
}

/// Runs the script that is made from this number, and tells of the run; returns the status. No
/// input is read.
pub fn tell_trial<K: Sink, E: Sink>(alloc: Global, number: u64, out: &mut K, notes: &mut E) -> u8
    ensures carried_out { (input : Option (List ℕ))
        → CarriesOut (command.Trial number) input input result (K.held out.old) (K.held out.new)
        (E.held notes.old) (E.held notes.new) (E.faults notes.old) (E.faults notes.new) }
    ensures write_fault { result ≡ 5 → Rose (K.faults out.old) (K.faults out.new)
        ⊎ Rose (E.faults notes.old) (E.faults notes.new) }
    ensures out_steady { result ≢ 5 → K.faults out.new ≡ K.faults out.old }
    ensures notes_steady { result ≢ 5 → E.faults notes.new ≡ E.faults notes.old }
    ensures status { (result ≡ 0) ⊎ (result ≡ 5) ⊎ (result ≡ 7) }
{
    match try_script(alloc, number) {
        Ok(events) => conclude(out, notes, Answer::Tried { number, events }),
        Err(NoMemory) => conclude(out, notes, Answer::NoMemory),
    }
}
