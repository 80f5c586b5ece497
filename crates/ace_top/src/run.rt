// Runs a script, and writes the trace of the run.
ghost use Rattle.std.specs.Prelude.{◌≡◌, ◌≢◌, ◌++◌, ◌⊎◌, ℕ, List, Option, false, is_err, reverse, IfOk, IfErr, OnOk, OnErr, IfSome};
ghost use Rattle.std.specs.Io.KnownBytes.{Appends, IsAtEnd};
ghost use Rattle.std.specs.List.{AllByRecursion};
ghost use Rattle.ace_event.specs.Ports.{IsHeader};
ghost use Rattle.ace_event.specs.Range.{IsAddress};
ghost use Rattle.ace_event.specs.Text.{events_text, trace_text};
ghost use Rattle.ace_io.specs.Faults.{HasCause};
ghost use Rattle.ace_fabric.specs.System.{plan_of};
ghost use Rattle.ace_runs.specs.Follows.{Done};
ghost use Rattle.ace_runs.specs.Ranges.{FitsTypes, IsWritable};
ghost use Rattle.ace_script.specs.Errors.{HasNoPlan};
ghost use Rattle.ace_script.specs.Grammar.{IsScript};
ghost use Rattle.ace_script.specs.Reading.{Reads, Whole};
ghost use Rattle.ace_writer.specs.Given.{GivesFront, sink_of, version_of, has_failed};
ghost use Rattle.ace_whole_runs.specs.Runs.{IsRunOf};
ghost use Rattle.ace_top.specs.Answer.{CarriesOut, HasStatusCause};
ghost use Rattle.ace_convert.specs.Output.{AppendsPart};
ghost use Rattle.ace_top.specs.Run.{SnoopsBy};
ghost use Rattle.ace_top.specs.declared.words.Command.TheVariants as command;

use crate::answer::{Answer, plan_answer};
use crate::output::conclude;
use crate::words::Snooping;
use ace_call::break_off;
use ace_event::laws::every_event_fits;
use ace_event::{Event, Header};
use ace_fabric::System;
use ace_filter::run_filtered;
use ace_io::{Gate, NoMemory, Sink, Source};
use ace_run::run_threads;
use ace_runs::laws::each_event_is_in_range;
use ace_script::{Plan, PlanErr};
use ace_writer::{WriteErr, Writer};
use std::alloc::Global;
use std::sync::Wait;
use std::thread::Threads;

fn address_fits(addr: u32)
    ensures { IsAddress addr }
{}

/// What the types of the event's fields give.
fn types_fit(event: &Event)
    ensures { FitsTypes event.now }
{
    every_event_fits(*event);
    match event {
        Event::Ar { addr, .. }
        | Event::Aw { addr, .. }
        | Event::Ac { addr, .. }
        | Event::S { addr, .. }
        | Event::L { addr, .. }
        | Event::D { addr, .. }
        | Event::Mem { addr, .. } => address_fits(*addr),
        _ => {}
    }
}

/// Adds the lines of the events to the text of the writer.
#[tactic(auto, using(crate::proofs::RunTexts::events))]
fn put_events<K: Sink>(writer: &mut Writer<K>, events: &[Event]) -> Result<(), WriteErr>
    requires range { AllByRecursion (IsWritable (version_of writer.old)) events.now }
    requires unfailed { has_failed writer.old ≡ false }
    ensures same_sink { (sink_of writer.new).ghost_name ≡ (sink_of writer.old).ghost_name }
    ensures text { (before : Option (List ℕ)) (text : List ℕ)
        → GivesFront K.held before text writer.old
        → OnOk result (GivesFront K.held before
        (text ++ events_text (version_of writer.old) events.now) writer.new) }
    ensures part { (before : Option (List ℕ)) (text : List ℕ)
        → GivesFront K.held before text writer.old
        → OnErr result (AppendsPart before (K.held (sink_of writer.new).now)
        (text ++ events_text (version_of writer.old) events.now)) }
    ensures failed { has_failed writer.new ≡ is_err result }
    ensures cause { HasCause (K.faults (sink_of writer.old).now)
        (K.faults (sink_of writer.new).now) result }
{
    for event in events {
        types_fit(event);
        match writer.put(event) {
            Ok(()) => {}
            Err(fault) => return Err(fault),
        }
    }
    Ok(())
}

/// Adds the lines of the events to the text of the writer, and gives all of it.
#[tactic(auto, using(crate::proofs::RunTexts::events))]
fn give_events<K: Sink>(writer: &mut Writer<K>, events: &[Event]) -> Result<(), WriteErr>
    requires range { AllByRecursion (IsWritable (version_of writer.old)) events.now }
    requires unfailed { has_failed writer.old ≡ false }
    ensures same_sink { (sink_of writer.new).ghost_name ≡ (sink_of writer.old).ghost_name }
    ensures whole { (before : Option (List ℕ)) (text : List ℕ)
        → GivesFront K.held before text writer.old
        → OnOk result (Appends before (K.held (sink_of writer.new).now)
        (text ++ events_text (version_of writer.old) events.now)) }
    ensures part { (before : Option (List ℕ)) (text : List ℕ)
        → GivesFront K.held before text writer.old
        → OnErr result (AppendsPart before (K.held (sink_of writer.new).now)
        (text ++ events_text (version_of writer.old) events.now)) }
    ensures cause { HasCause (K.faults (sink_of writer.old).now)
        (K.faults (sink_of writer.new).now) result }
{
    match put_events(writer, events) {
        Ok(()) => writer.flush(),
        Err(fault) => Err(fault),
    }
}

/// Writes a trace.
#[tactic(auto, using(crate::proofs::RunTexts::events))]
fn put_trace<K: Sink>(header: &Header, events: &[Event], out: &mut K) -> Result<(), WriteErr>
    requires header { IsHeader header.now }
    requires range { AllByRecursion (IsWritable header.now.version) events.now }
    ensures whole { OnOk result (Appends (K.held out.old) (K.held out.new)
        (trace_text header.now events.now)) }
    ensures part { OnErr result (AppendsPart (K.held out.old) (K.held out.new)
        (trace_text header.now events.now)) }
    ensures cause { HasCause (K.faults out.old) (K.faults out.new) result }
{
    let mut writer = Writer::start(out, header)?;
    give_events(&mut writer, events)
}

/// What holds of a run that is done.
pub fn is_run(system: &System)
    requires { Done system.now.plan system.now.past }
    ensures { IsRunOf system.now.plan system.now.past }
{
    system.keeps();
}

/// The events of a run can be written.
fn are_writable(system: &System)
    ensures { AllByRecursion (IsWritable system.now.plan.header.version) system.now.past }
{
    system.keeps();
    each_event_is_in_range();
}

/// Writes the trace of a run.
#[tactic(auto, using(crate::proofs::RunTexts::events))]
fn write_run<K: Sink>(system: &System, out: &mut K) -> Result<(), WriteErr>
    requires done { Done system.now.plan system.now.past }
    ensures script { IsScript system.now.plan }
    ensures run { IsRunOf system.now.plan system.now.past }
    ensures whole { OnOk result (Appends (K.held out.old) (K.held out.new)
        (trace_text system.now.plan.header (reverse system.now.past))) }
    ensures part { OnErr result (AppendsPart (K.held out.old) (K.held out.new)
        (trace_text system.now.plan.header (reverse system.now.past))) }
    ensures cause { HasCause (K.faults out.old) (K.faults out.new) result }
{
    is_run(system);
    are_writable(system);
    let header = system.plan().view().header();
    put_trace(&header, system.trace(), out)
}

/// Writes the trace of a run, of which there is no more use.
fn put_run<K: Sink>(system: System, out: &mut K) -> Result<(), WriteErr>
    requires done { Done system.plan system.past }
    ensures script { IsScript system.plan }
    ensures run { IsRunOf system.plan system.past }
    ensures whole { OnOk result (Appends (K.held out.old) (K.held out.new)
        (trace_text system.plan.header (reverse system.past))) }
    ensures part { OnErr result (AppendsPart (K.held out.old) (K.held out.new)
        (trace_text system.plan.header (reverse system.past))) }
    ensures cause { HasCause (K.faults out.old) (K.faults out.new) result }
{
    let written = write_run(&system, out);
    drop(system);
    written
}

/// The run of the plan, once it is done: in threads, or with a snoop filter on the caller's thread.
fn run_plan<R: Threads + Wait + Sync, G: Gate + Sync>(
    rt: &R,
    alloc: Global,
    plan: &Plan,
    gate: &G,
    snooping: Snooping,
) -> Result<System, NoMemory>
    ensures done { IfOk result (λ s. Done s.plan s.past) }
    ensures plan { IfOk result (λ s. plan_of s ≡ plan.now) }
    ensures snoops { IfOk result (λ s. SnoopsBy snooping s.plan.header s.past) }
{
    match snooping {
        Snooping::AllPorts => run_threads(rt, alloc, plan, gate),
        Snooping::KeptPorts => run_filtered(alloc, plan),
    }
}

/// The run of the script that the input gives, once it is done.
fn run<R: Threads + Wait + Sync, S: Source, G: Gate + Sync>(
    rt: &R,
    alloc: Global,
    input: &mut S,
    gate: &G,
    snooping: Snooping,
) -> Result<System, PlanErr>
    ensures done { IfOk result (λ s. Done s.plan s.past) }
    ensures snoops { IfOk result (λ s. SnoopsBy snooping s.plan.header s.past) }
    ensures script { IfOk result (λ s. IfSome (S.left input.old)
        (λ bytes. Reads bytes s.plan Whole)) }
    ensures end { OnOk result (IsAtEnd (S.left input.new)) }
    ensures steady { OnOk result (S.faults input.new ≡ S.faults input.old) }
    ensures none { IfErr result (λ error. HasNoPlan error (S.left input.old)
        (S.faults input.old) (S.faults input.new)) }
{
    match Plan::read(alloc, input) {
        Ok(plan) => {
            let ran = run_plan(rt, alloc, &plan, gate, snooping);
            drop(plan);
            match ran {
                Ok(system) => Ok(system),
                Err(NoMemory) => Err(PlanErr::NoMemory),
            }
        }
        Err(error) => Err(error),
    }
}

/// Runs the script that the input gives, and writes the trace of the run; returns the status.
/// Nothing is written before the run has ended.
#[tactic(auto, using(crate::proofs::RunLemmas::plans))]
pub fn run_script<R: Threads + Wait + Sync, S: Source, K: Sink, E: Sink, G: Gate + Sync>(
    rt: &R,
    alloc: Global,
    input: &mut S,
    out: &mut K,
    notes: &mut E,
    gate: &G,
    snooping: Snooping,
) -> u8
    ensures carried_out { CarriesOut (command.Run snooping) (S.left input.old)
        (S.left input.new) result (K.held out.old) (K.held out.new)
        (E.held notes.old) (E.held notes.new) (E.faults notes.old) (E.faults notes.new) }
    ensures cause { HasStatusCause result (S.faults input.old) (S.faults input.new)
        (K.faults out.old) (K.faults out.new) (E.faults notes.old) (E.faults notes.new) }
    ensures end { result ≡ 0 → IsAtEnd (S.left input.new) }
{
    match run(rt, alloc, input, gate, snooping) {
        Ok(system) => match put_run(system, out) {
            Ok(()) => conclude(out, notes, Answer::Ran),
            Err(_) => break_off(notes),
        },
        Err(error) => conclude(out, notes, plan_answer(error)),
    }
}
