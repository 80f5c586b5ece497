// Follows a trace event by event: checks it, and lets it be heard where an account is asked for.
ghost use Rattle.std.specs.Prelude.{◌≡◌, ◌<◌, ◌-◌, ◌^◌, ◌∷◌, ℕ, Option, None, Some, [], false, length, option_map, IfNone, IfSome, OnOk};
ghost use Rattle.ace_event.specs.Ports.{IsHeader};
ghost use Rattle.ace_event.specs.declared.header.Header.{Header};
ghost use Rattle.ace_model.specs.declared.breaks.Break.{Break};
ghost use Rattle.ace_model.specs.Trace.{Trace};
ghost use Rattle.ace_model.specs.Accepted.{IsAccepted, least_broken};
ghost use Rattle.ace_model.specs.Copies.{memory_of};
ghost use Rattle.ace_check.specs.Promises.{goes_over_within};
ghost use Rattle.ace_check.specs.Run as check;
ghost use Rattle.ace_account.specs.Accounts.{HasPut, HasPutCause};
ghost use Rattle.ace_account.specs.Listeners as listening;
ghost use Rattle.ace_grammar.specs.Reading.{most_events};
ghost use Rattle.ace_outstanding.specs.Outstanding.{outstanding_count};
ghost use Rattle.ace_verdict.specs.Follow.{Follows, HasTaken, TakesOn, asked_of, ended_by, fed_verdict};
ghost use Rattle.ace_verdict.specs.Progress.{IsStop, StopsAt};

use crate::verdict::Verdict;
use ace_account::{Account, AccountErr, Listener};
use ace_check::{CheckErr, Checker, Step};
use ace_event::{Event, Header, Line};
use ace_grammar::Taker;
use ace_io::{NoMemory, Sink};
use ace_outstanding::count_outstanding;
use std::alloc::Global;

/// The verdict that ends the check, if the checker doesn't say that the event is fine.
#[inline(always)]
fn fed_verdict(fed: Result<Step, CheckErr>) -> Option<Verdict>
    ensures { result ≡ fed_verdict fed }
{
    match fed {
        Ok(Step::Fine) => None,
        _ => stop_of(fed),
    }
}

/// The same, of an event that may not be fine.
#[cold]
#[inline(never)]
fn stop_of(fed: Result<Step, CheckErr>) -> Option<Verdict>
    ensures { result ≡ fed_verdict fed }
{
    match fed {
        Ok(Step::Fine) => None,
        Ok(Step::Broken { index, rule }) => Some(Verdict::Refused { index, rule }),
        Err(CheckErr::NoMemory) => Some(Verdict::NoMemory),
        Err(CheckErr::TooManyLines) => Some(Verdict::LimitLines),
    }
}

/// Checks the next event. A verdict ends the check.
#[inline(always)]
fn feed(checker: &mut Checker, event: &Event) -> Option<Verdict>
    ensures fine { (lines : ℕ) (h : Header) (past : Trace)
        → check.StandsWithin lines checker.old h past None
        → IfNone result ((least_broken h past event.now ≡ None)
        × (goes_over_within lines past event.now ≡ false)) }
    ensures stands { (lines : ℕ) (h : Header) (past : Trace)
        → check.StandsWithin lines checker.old h past None
        → length past < 2 ^ 64 - 2 → IfNone result
        (check.StandsWithin lines checker.new h (event.now ∷ past) None) }
    ensures stops { (lines : ℕ) (h : Header) (past : Trace)
        → check.StandsWithin lines checker.old h past None
        → IfSome result (StopsAt lines h past event.now) }
    ensures stop { IfSome result IsStop }
{
    fed_verdict(checker.feed(event))
}

/// Memory of the line, if there is one.
#[inline(always)]
fn memory_at(checker: &Checker, line: Option<u32>) -> Line
    ensures { (lines : ℕ) (h : Header) (past : Trace) (b : Option Break) (l : ℕ)
        → check.StandsWithin lines checker.now h past b
        → line ≡ Some l → result ≡ memory_of past l }
{
    match line {
        Some(line) => checker.memory(line),
        None => Line { words: [0; 4] },
    }
}

/// Lets the next event be heard, if an account is asked for. The checker is that before it.
#[inline(always)]
fn hear(checker: &Checker, listener: &mut Option<Listener>, event: &Event) -> Result<(), NoMemory>
    ensures heard { (lines : ℕ) (h : Header) (past : Trace)
        → check.StandsWithin lines checker.now h past None
        → IfSome listener.old (λ l. listening.Stands l h past) → IsAccepted h (event.now ∷ past)
        → length past < most_events
        → OnOk result (IfSome listener.new (λ l. listening.Stands l h (event.now ∷ past))) }
    ensures same_account { option_map listening.account_of listener.new
        ≡ option_map listening.account_of listener.old }
{
    match listener {
        Some(listener) => {
            let line = listener.wanted_line(event, checker.ports());
            let memory = memory_at(checker, line);
            listener.hear(event, checker.ports(), line, memory)
        }
        None => Ok(()),
    }
}

/// What follows a trace: its checker, what hears it where an account is asked for, and the verdict
/// that ended its check, if one did.
#[derive(Drop)]
pub struct Follower {
    checker: Checker,
    listener: Option<Listener>,
    stop: Option<Verdict>,
}

impl Follower {
    /// The follower of the empty trace under this header, which may name so many lines, or None
    /// where there is no memory.
    pub fn new(
        alloc: Global,
        header: Header,
        account: Option<Account>,
        lines: usize,
    ) -> Option<Follower>
        requires { IsHeader header }
        ensures follows { IfSome result (λ f. Follows lines f header []) }
        ensures account { IfSome result (λ f. asked_of f ≡ account) }
    {
        let checker = match Checker::with_lines(alloc, header, lines) {
            Ok(checker) => checker,
            Err(_) => return None,
        };
        match account {
            Some(account) => match Listener::new(alloc, header, account) {
                Ok(listener) => Some(Follower {
                    checker,
                    listener: Some(listener),
                    stop: None,
                }),
                Err(_) => None,
            },
            None => Some(Follower {
                checker,
                listener: None,
                stop: None,
            }),
        }
    }

    /// Follows one more event of the trace, of as many as a trace may have. A verdict ends the
    /// check: the event breaks a rule, or names a line too many, or there is no memory.
    #[inline(always)]
    fn follow_one(&mut self, event: &Event) -> Option<Verdict>
        ensures taken { HasTaken self.old event.now (ended_by self.new result) }
        ensures same_stop { self.new.stop ≡ self.old.stop }
    {
        match hear(&self.checker, &mut self.listener, event) {
            Ok(()) => feed(&mut self.checker, event),
            Err(NoMemory) => Some(Verdict::NoMemory),
        }
    }

    /// Follows one more event of the trace, and keeps the verdict that ends the check, if one does.
    pub fn take(&mut self, event: &Event)
        ensures { HasTaken self.old event.now self.new }
    {
        self.stop = self.follow_one(event);
    }

    /// The verdict that ended the check, if one did.
    #[inline(always)]
    pub fn stop(&self) -> Option<Verdict>
        ensures { result ≡ self.now.stop }
    {
        self.stop
    }

    /// How many events were followed.
    pub fn count(&self) -> u64
        ensures { (lines : ℕ) (h : Header) (past : Trace) → Follows lines self.now h past
            → result ≡ length past }
    {
        self.checker.count()
    }
}

impl Taker for Follower {
    ghost took = { TakesOn };

    /// Follows one more event, where nothing has ended the check.
    #[inline(always)]
    fn takes(&mut self, event: &Event) -> bool {
        if self.stop.is_some() {
            return false;
        }
        if let Some(verdict) = self.follow_one(event) {
            self.stop = Some(verdict);
        }
        true
    }
}

/// How many transactions are outstanding after what the follower has followed, of which there is no
/// more use.
pub fn outstanding_of(follower: Follower) -> u64
    ensures { (lines : ℕ) (h : Header) (past : Trace) → Follows lines follower h past
        → result ≡ outstanding_count h past }
{
    let count = count_outstanding(follower.checker.ports());
    drop(follower);
    count
}

/// Puts the account that was asked for, of a follower of which there is no more use.
pub fn put_account<K: Sink>(follower: Follower, sink: &mut K) -> Result<(), AccountErr>
    ensures put { (lines : ℕ) (h : Header) (past : Trace) → Follows lines follower h past
        → IfSome (asked_of follower)
        (λ account. HasPut account h past (K.held sink.old) (K.held sink.new) result) }
    ensures cause { HasPutCause (K.faults sink.old) (K.faults sink.new) result }
{
    let Follower {
        checker,
        listener,
        ..
    } = follower;
    drop(checker);
    match listener {
        Some(listener) => listener.put(sink),
        None => Ok(()),
    }
}
