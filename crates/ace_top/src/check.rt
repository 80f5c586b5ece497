// Checks a trace, event by event, as it is read, and gives an account of it where one is asked for.
ghost use Rattle.std.specs.Prelude.{◌≡◌, IfSome};
ghost use Rattle.ace_grammar.specs.Errors.{LeavesNothing};
ghost use Rattle.ace_verdict.specs.Verdict.{ReadsSound};
ghost use Rattle.ace_top.specs.Answer.{CarriesOut, HasStatusCause};
ghost use Rattle.ace_top.specs.declared.words.Command.TheVariants as command;

use crate::answer::{Answer, verdict_answer};
use crate::output::conclude;
use ace_account::{Account, AccountErr};
use ace_call::break_off;
use ace_io::{Sink, Source};
use ace_verdict::{follow_trace, put_account, verdict_on};
use std::alloc::Global;

/// Tells the verdict on the trace that the input gives, and returns the status.
#[tactic(auto, using(crate::proofs::AcceptedEnd::accepted_end))]
pub fn tell_verdict<S: Source, K: Sink, E: Sink>(
    alloc: Global,
    input: &mut S,
    out: &mut K,
    notes: &mut E,
) -> u8
    ensures carried_out { CarriesOut command.Check (S.left input.old)
        (S.left input.new) result (K.held out.old) (K.held out.new)
        (E.held notes.old) (E.held notes.new) (E.faults notes.old) (E.faults notes.new) }
    ensures cause { HasStatusCause result (S.faults input.old) (S.faults input.new)
        (K.faults out.old) (K.faults out.new) (E.faults notes.old) (E.faults notes.new) }
    ensures sound { result ≡ 0 → IfSome (S.left input.old) ReadsSound }
    ensures whole { result ≡ 0 → LeavesNothing (S.left input.old) (S.left input.new) }
{
    let verdict = verdict_on(alloc, input);
    conclude(out, notes, verdict_answer(verdict))
}

/// Gives an account of the trace that the input gives, where it is accepted, and else tells the
/// verdict; returns the status.
#[tactic(auto, using(crate::proofs::AcceptedEnd::accepted_end))]
pub fn tell_account<S: Source, K: Sink, E: Sink>(
    alloc: Global,
    input: &mut S,
    out: &mut K,
    notes: &mut E,
    account: Account,
) -> u8
    ensures carried_out { CarriesOut (command.Account account) (S.left input.old) (S.left input.new)
        result (K.held out.old) (K.held out.new)
        (E.held notes.old) (E.held notes.new) (E.faults notes.old) (E.faults notes.new) }
    ensures cause { HasStatusCause result (S.faults input.old) (S.faults input.new)
        (K.faults out.old) (K.faults out.new) (E.faults notes.old) (E.faults notes.new) }
    ensures sound { result ≡ 0 → IfSome (S.left input.old) ReadsSound }
    ensures whole { result ≡ 0 → LeavesNothing (S.left input.old) (S.left input.new) }
{
    match follow_trace(alloc, input, Some(account)) {
        Ok(follower) => match put_account(follower, out) {
            Ok(()) => conclude(out, notes, Answer::Reported),
            Err(AccountErr::NoMemory) => conclude(out, notes, Answer::NoMemory),
            Err(AccountErr::Failed) => break_off(notes),
        },
        Err(verdict) => conclude(out, notes, verdict_answer(verdict)),
    }
}
