// What is told of a trace.
ghost use Rattle.std.specs.Prelude.{◌≡◌, IfOk, OnErr};
ghost use Rattle.ace_io.specs.Faults.{HasCause};
ghost use Rattle.ace_explanation.specs.Explanations.{HasAnyLine};
ghost use Rattle.ace_explanation.specs.Refusals.{HasLine};
ghost use Rattle.ace_explanation.specs.Told.{HasTold, HasToldPart};
ghost use Rattle.ace_explanation.specs.declared.explanation.Explanation.TheVariants.{Refused, Malformed, Accepted, Other};

use crate::explanation::Explanation;
use crate::refusal::Refusal;
use crate::refusals::refusal_text;
use crate::verdicts::{give_accepted, give_verdict};
use ace_call::give_text;
use ace_io::{Failed, NoMemory, Sink};
use ace_malformed::{BadLine, bad_line_text};
use ace_side_facts::SideFacts;
use ace_verdict::Verdict;
use std::alloc::Global;

/// Tells the verdict, which says all.
#[tactic(auto, using(crate::proofs::Telling::telling))]
fn tell_verdict<K: Sink>(
    out: &mut K,
    name: &str,
    short: bool,
    _facts: &SideFacts,
    verdict: Verdict,
) -> Result<Verdict, Failed>
    ensures whole { IfOk result (HasTold _facts.now name.now short (Other verdict) (K.held out.old)
        (K.held out.new)) }
    ensures part { OnErr result (HasToldPart _facts.now name.now short (Other verdict) (K.held out.old)
        (K.held out.new)) }
    ensures cause { HasCause (K.faults out.old) (K.faults out.new) result }
{
    match give_verdict(out, name, verdict) {
        Ok(()) => Ok(verdict),
        Err(failed) => Err(failed),
    }
}

/// Tells that the trace is accepted, and what is outstanding at its end.
#[tactic(auto, using(crate::proofs::Telling::telling))]
fn tell_accepted<K: Sink>(
    out: &mut K,
    name: &str,
    short: bool,
    _facts: &SideFacts,
    events: u64,
    outstanding: u64,
) -> Result<Verdict, Failed>
    ensures whole { IfOk result (HasTold _facts.now name.now short (Accepted events outstanding)
        (K.held out.old) (K.held out.new)) }
    ensures part { OnErr result (HasToldPart _facts.now name.now short (Accepted events outstanding)
        (K.held out.old) (K.held out.new)) }
    ensures cause { HasCause (K.faults out.old) (K.faults out.new) result }
{
    match give_accepted(out, name, short, events, outstanding) {
        Ok(()) => Ok(Verdict::Accepted { events }),
        Err(failed) => Err(failed),
    }
}

/// Tells of the event that breaks a rule.
#[tactic(auto, using(crate::proofs::Telling::telling))]
fn tell_refusal<K: Sink>(
    alloc: Global,
    out: &mut K,
    name: &str,
    short: bool,
    facts: &SideFacts,
    refusal: Refusal,
) -> Result<Verdict, Failed>
    requires { HasLine refusal }
    ensures whole { IfOk result (HasTold facts.now name.now short (Refused refusal) (K.held out.old)
        (K.held out.new)) }
    ensures part { OnErr result (HasToldPart facts.now name.now short (Refused refusal) (K.held out.old)
        (K.held out.new)) }
    ensures cause { HasCause (K.faults out.old) (K.faults out.new) result }
{
    match refusal_text(alloc, name.as_bytes(), short, facts, &refusal) {
        Ok(text) => match give_text(out, text.as_slice()) {
            Ok(()) => Ok(Explanation::Refused { refusal }.verdict()),
            Err(failed) => Err(failed),
        },
        Err(NoMemory) => tell_verdict(out, name, short, facts, Verdict::NoMemory),
    }
}

/// Tells of the malformed line.
#[tactic(auto, using(crate::proofs::Telling::telling))]
fn tell_malformed<K: Sink>(
    alloc: Global,
    out: &mut K,
    name: &str,
    short: bool,
    facts: &SideFacts,
    bad: BadLine,
) -> Result<Verdict, Failed>
    ensures whole { IfOk result (HasTold facts.now name.now short (Malformed bad) (K.held out.old)
        (K.held out.new)) }
    ensures part { OnErr result (HasToldPart facts.now name.now short (Malformed bad) (K.held out.old)
        (K.held out.new)) }
    ensures cause { HasCause (K.faults out.old) (K.faults out.new) result }
{
    match bad_line_text(alloc, name.as_bytes(), short, &bad) {
        Ok(text) => match give_text(out, text.as_slice()) {
            Ok(()) => Ok(Explanation::Malformed { bad }.verdict()),
            Err(failed) => Err(failed),
        },
        Err(_) => tell_verdict(out, name, short, facts, Verdict::NoMemory),
    }
}

/// Tells the explanation of the trace of this name, with what its side file tells, or that there was no memory for that, and says
/// which verdict was told.
///
/// # Errors
///
/// `Failed` where the sink failed: a front of the text was given.
#[tactic(auto, using(crate::proofs::Telling::telling))]
pub fn tell<K: Sink>(
    alloc: Global,
    out: &mut K,
    name: &str,
    short: bool,
    facts: &SideFacts,
    explanation: Explanation,
) -> Result<Verdict, Failed>
    requires { HasAnyLine explanation }
    ensures whole { IfOk result (HasTold facts.now name.now short explanation (K.held out.old)
        (K.held out.new)) }
    ensures part { OnErr result (HasToldPart facts.now name.now short explanation (K.held out.old)
        (K.held out.new)) }
    ensures cause { HasCause (K.faults out.old) (K.faults out.new) result }
{
    match explanation {
        Explanation::Refused { refusal } => tell_refusal(alloc, out, name, short, facts, refusal),
        Explanation::Malformed { bad } => tell_malformed(alloc, out, name, short, facts, bad),
        Explanation::Accepted {
            events,
            outstanding,
        } => tell_accepted(out, name, short, facts, events, outstanding),
        Explanation::Other { verdict } => tell_verdict(out, name, short, facts, verdict),
    }
}
