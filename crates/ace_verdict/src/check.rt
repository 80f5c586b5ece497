// Follows the text of a trace, event by event, as it is read, to its verdict.
ghost use Rattle.std.specs.Prelude.{◌≡◌, ◌≤◌, ℕ, List, [], Option, None, false, IfSome, IfOk, IfErr, OnOk};
ghost use Rattle.ace_grammar.specs.Errors.{LeavesNothing, TakesFront};
ghost use Rattle.ace_grammar.specs.Reader.{source_of, unread, header_of, most_of, count_of, last_answer, lasting, given};
ghost use Rattle.ace_grammar.specs.Reading.{most_counted};
ghost use Rattle.ace_verdict.specs.Errors.{ends_so};
ghost use Rattle.ace_verdict.specs.Ended.{IsOutstanding};
ghost use Rattle.ace_verdict.specs.Follow.{HasComeTo, HasFollowed, IsReady, asked_of};
ghost use Rattle.ace_verdict.specs.Limits.{CanFollow, trace_limits};
ghost use Rattle.ace_verdict.specs.Progress.{HasReadCause, IsRefusal, IsStop, StandsAt};
ghost use Rattle.ace_verdict.specs.Verdict.{IsVerdict, IsVerdictWithin, ReadsSound, ReadsSoundWithin};
ghost use Rattle.ace_verdict.specs.declared.verdict.Verdict.TheVariants.{Accepted};

use crate::ended::Ended;
use crate::follow::{Follower, outstanding_of};
use crate::limits::Limits;
use crate::verdict::{Verdict, refusal_of};
use ace_account::Account;
use ace_event::Event;
use ace_grammar::{NO_EVENT, Reader};
use ace_io::Source;
use std::alloc::Global;

/// The verdict on the trace that the input gives, which has at most 1,048,576 events and names at
/// most 4,096 lines.
pub fn verdict_on<S: Source>(alloc: Global, input: &mut S) -> Verdict
    // Where the input tells its bytes, it is the verdict on them. Of an accepted trace none are
    // left, and it has all that acceptance promises: it is coherent, its exclusive stores are
    // exclusive, its barriers order, and its Syncs wait for all.
    ensures verdict { IfSome (S.left input.old) (λ bytes. IsVerdict bytes result) }
    ensures whole { (events : ℕ) → result ≡ Accepted events
        → LeavesNothing (S.left input.old) (S.left input.new) }
    ensures sound { (events : ℕ) → result ≡ Accepted events
        → IfSome (S.left input.old) ReadsSound }

    // It is a read fault exactly where the input failed.
    ensures cause { HasReadCause (S.faults input.old) (S.faults input.new) result }
{
    verdict_within(alloc, input, Limits::of_a_trace())
}

/// The same, of a trace that may have so much.
pub fn verdict_within<S: Source>(alloc: Global, input: &mut S, limits: Limits) -> Verdict
    requires counted { limits.events ≤ most_counted }
    ensures verdict { IfSome (S.left input.old) (λ bytes. IsVerdictWithin limits bytes result) }
    ensures whole { (events : ℕ) → result ≡ Accepted events
        → LeavesNothing (S.left input.old) (S.left input.new) }
    ensures sound { (events : ℕ) → result ≡ Accepted events
        → IfSome (S.left input.old) (ReadsSoundWithin limits.events) }
    ensures cause { HasReadCause (S.faults input.old) (S.faults input.new) result }
{
    ended_within(alloc, input, limits).verdict
}

/// The same, and of a trace that is accepted how many transactions are outstanding at its end.
#[tactic(auto, using(crate::proofs::Followed::followed))]
pub fn ended_within<S: Source>(alloc: Global, input: &mut S, limits: Limits) -> Ended
    requires counted { limits.events ≤ most_counted }
    ensures verdict { IfSome (S.left input.old)
        (λ bytes. IsVerdictWithin limits bytes result.verdict) }
    ensures outstanding { IfSome (S.left input.old)
        (λ bytes. IsOutstanding bytes result.verdict result.outstanding) }
    ensures whole { (events : ℕ) → result.verdict ≡ Accepted events
        → LeavesNothing (S.left input.old) (S.left input.new) }
    ensures sound { (events : ℕ) → result.verdict ≡ Accepted events
        → IfSome (S.left input.old) (ReadsSoundWithin limits.events) }
    ensures cause { HasReadCause (S.faults input.old) (S.faults input.new) result.verdict }
{
    match follow_within(alloc, input, None, limits) {
        Ok(follower) => Ended {
            verdict: Verdict::Accepted {
                events: follower.count(),
            },
            outstanding: outstanding_of(follower),
        },
        Err(verdict) => Ended {
            verdict,
            outstanding: 0,
        },
    }
}

/// Follows the trace that the input gives, which has at most 1,048,576 events and names at most
/// 4,096 lines, for an account of it if one is asked for: what followed it to its end, where it is
/// accepted, or else the verdict.
pub fn follow_trace<S: Source>(
    alloc: Global,
    input: &mut S,
    account: Option<Account>,
) -> Result<Follower, Verdict>
    ensures accepted { IfOk result (HasFollowed trace_limits (S.left input.old)) }
    ensures verdict { IfErr result (λ verdict.
        IfSome (S.left input.old) (λ bytes. IsVerdict bytes verdict)) }
    ensures refusal { IfErr result IsRefusal }
    ensures account { IfOk result (λ f. asked_of f ≡ account) }
    ensures whole { OnOk result (LeavesNothing (S.left input.old) (S.left input.new)) }
    ensures sound { OnOk result (IfSome (S.left input.old) ReadsSound) }
    ensures steady { OnOk result (S.faults input.new ≡ S.faults input.old) }
    ensures cause { IfErr result (HasReadCause (S.faults input.old) (S.faults input.new)) }
{
    follow_within(alloc, input, account, Limits::of_a_trace())
}

/// The same, of a trace that may have so much.
#[tactic(auto, using(crate::proofs::ProgressLemmas::progress, crate::proofs::ErrorLemmas::errors))]
fn follow_within<S: Source>(
    alloc: Global,
    input: &mut S,
    account: Option<Account>,
    limits: Limits,
) -> Result<Follower, Verdict>
    requires can { CanFollow account limits }
    ensures accepted { IfOk result (HasFollowed limits (S.left input.old)) }
    ensures verdict { IfErr result (λ verdict.
        IfSome (S.left input.old) (λ bytes. IsVerdictWithin limits bytes verdict)) }
    ensures refusal { IfErr result IsRefusal }
    ensures account { IfOk result (λ f. asked_of f ≡ account) }
    ensures whole { OnOk result (LeavesNothing (S.left input.old) (S.left input.new)) }
    ensures sound { OnOk result (IfSome (S.left input.old) (ReadsSoundWithin limits.events)) }
    ensures steady { OnOk result (S.faults input.new ≡ S.faults input.old) }
    ensures cause { IfErr result (HasReadCause (S.faults input.old) (S.faults input.new)) }
{
    match Reader::start_within(alloc, input, limits.events) {
        Ok(mut reader) => match Follower::new(alloc, reader.header(), account, limits.lines) {
            Some(follower) => follow(follower, &mut reader),
            None => Err(Verdict::NoMemory),
        },
        Err(failed) => Err(refusal_of(failed.error)),
    }
}

/// Follows the events of a trace to its end, unless a verdict comes before; what followed it to its
/// end.
fn follow<S: Source>(mut follower: Follower, reader: &mut Reader<S>) -> Result<Follower, Verdict>
    requires reads_on { last_answer reader.old ≡ None }
    requires fresh { count_of reader.old ≡ 0 }
    ensures same_source { (source_of reader.new).ghost_name ≡ (source_of reader.old).ghost_name }
    ensures same_account { IfOk result (λ f. asked_of f ≡ asked_of follower) }
    ensures accepted { (limits : Limits) (told : Option (List ℕ))
        → IsReady limits follower reader.old
        → StandsAt limits.lines told (header_of reader.old) [] (unread S.left reader.old)
        → IfOk result (HasFollowed limits told) }
    ensures verdict { (limits : Limits) (told : Option (List ℕ))
        → IsReady limits follower reader.old
        → StandsAt limits.lines told (header_of reader.old) [] (unread S.left reader.old)
        → IfErr result (λ verdict. IfSome told (λ bytes. IsVerdictWithin limits bytes verdict)) }
    ensures refusal { IfErr result IsRefusal }
    ensures end { OnOk result (LeavesNothing (unread S.left reader.old)
        (S.left (source_of reader.new).now)) }
    ensures steady { OnOk result (S.faults (source_of reader.new).now
        ≡ S.faults (source_of reader.old).now) }
    ensures cause { IfErr result (HasReadCause (S.faults (source_of reader.old).now)
        (S.faults (source_of reader.new).now)) }
{
    match check_events(&mut follower, reader) {
        Ok(()) => Ok(follower),
        Err(verdict) => Err(verdict),
    }
}

/// Follows the events of a trace to its end, unless a verdict comes before.
#[tactic(auto, using(crate::proofs::ReaderEnds::ended))]
fn check_events<S: Source>(follower: &mut Follower, reader: &mut Reader<S>) -> Result<(), Verdict>
    requires reads_on { last_answer reader.old ≡ None }
    requires fresh { count_of reader.old ≡ 0 }
    ensures same_source { (source_of reader.new).ghost_name ≡ (source_of reader.old).ghost_name }
    ensures same_account { asked_of follower.new ≡ asked_of follower.old }
    ensures accepted { (limits : Limits) (told : Option (List ℕ))
        → IsReady limits follower.old reader.old
        → StandsAt limits.lines told (header_of reader.old) [] (unread S.left reader.old)
        → OnOk result (HasFollowed limits told follower.new) }
    ensures verdict { (limits : Limits) (told : Option (List ℕ))
        → IsReady limits follower.old reader.old
        → StandsAt limits.lines told (header_of reader.old) [] (unread S.left reader.old)
        → IfErr result (λ verdict. IfSome told (λ bytes. IsVerdictWithin limits bytes verdict)) }
    ensures refusal { IfErr result IsRefusal }
    ensures end { OnOk result (LeavesNothing (unread S.left reader.old)
        (S.left (source_of reader.new).now)) }
    ensures steady { OnOk result (S.faults (source_of reader.new).now
        ≡ S.faults (source_of reader.old).now) }
    ensures cause { IfErr result (HasReadCause (S.faults (source_of reader.old).now)
        (S.faults (source_of reader.new).now)) }
{
    let mut event = NO_EVENT;
    'events: while reader.gives(&mut event) {
        follower.take(&event);
        follow_at_once(follower, reader);
        if let Some(verdict) = follower.stop() {
            return Err(verdict);
        }
    }
    ending(reader, &mut event)
}

/// Follows the next events while they are read, as far as that can be.
#[inline(always)]
#[tactic(auto, using(crate::proofs::Handed::all_front))]
fn follow_at_once<S: Source>(follower: &mut Follower, reader: &mut Reader<S>)
    ensures same_source { (source_of reader.new).ghost_name ≡ (source_of reader.old).ghost_name }
    ensures source { (source_of reader.new).now ≡ (source_of reader.old).now }
    ensures same_header { header_of reader.new ≡ header_of reader.old }
    ensures same_most { most_of reader.new ≡ most_of reader.old }
    ensures same_account { asked_of follower.new ≡ asked_of follower.old }
    ensures same_answer { last_answer reader.new ≡ last_answer reader.old }
    ensures further { count_of reader.old ≤ count_of reader.new }
    ensures few { count_of reader.new ≤ most_of reader.new }
    ensures front { TakesFront (unread S.left reader.old) (unread S.left reader.new) }
    ensures stop { IfSome follower.old.stop IsStop → IfSome follower.new.stop IsStop }
    ensures comes { (limits : Limits) (start : Option (List ℕ))
        → CanFollow (asked_of follower.old) limits
        → most_of reader.old ≡ limits.events
        → HasComeTo limits follower.old.stop follower.old (count_of reader.old)
        (header_of reader.old)
        start (unread S.left reader.old)
        → HasComeTo limits follower.new.stop follower.new (count_of reader.new)
        (header_of reader.old)
        start (unread S.left reader.new) }
{
    reader.hands_all_over(follower);
}

/// How the reading of a trace has ended: at its end, or by an error.
#[cold]
#[inline(never)]
fn ending<S: Source>(reader: &mut Reader<S>, event: &mut Event) -> Result<(), Verdict>
    requires kept { last_answer reader.old
        ≡ lasting (given false event.old (last_answer reader.old)) }
    ensures same { reader.new ≡ reader.old }
    ensures end { result ≡ ends_so (given false event.old (last_answer reader.old)) }
{
    match reader.next_into(event) {
        Ok(_) => Ok(()),
        Err(error) => Err(refusal_of(error)),
    }
}
