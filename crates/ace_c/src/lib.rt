//! The checker for programs in C: a handle that is fed the events of a trace as they happen.
#![tactic(auto)]

mod answer;
mod handle;
mod header;
mod laws;
mod names;
mod owned;
mod parts;
mod range;
mod record;
mod session;

ghost use Rattle.std.specs.Prelude.{◌≡◌, ◌≢◌, ◌↔◌, ◌⊎◌, ◌∷◌, [], ◌+◌, ℕ, None, length};
ghost use Rattle.ace_event.specs.declared.header.Header.{Header};
ghost use Rattle.ace_event.specs.Ports.{IsHeader};
ghost use Rattle.ace_model.specs.Trace.{Trace};
ghost use Rattle.ace_check.specs.Run.{IsSound};
ghost use Rattle.ace_c.specs.declared.answer.Ending.{Ending};
ghost use Rattle.ace_c.specs.Answers.{status_of, answer_of, fine, not_open};
ghost use Rattle.ace_c.specs.Headers.{given, limit_given};
ghost use Rattle.ace_c.specs.Names.{named};
ghost use Rattle.ace_c.specs.Records.{event_of};
ghost use Rattle.ace_c.specs.Sessions.{IsEnding, IsEventThat};
ghost use Rattle.ace_c.specs.Handles.{Hears, HasEnded, HasFed, session_of};

use crate::answer::not_open;
use crate::header::header_of;
use crate::session::Session;
pub use answer::AceAnswer;
pub use handle::AceChecker;
pub use record::AceEvent;
use std::alloc::Global;

/// Opens a checker of the empty trace of this version with so many ports, of which those with a bit
/// in `ace` are ACE ports, whose transactions may name so many lines, or any number where that is
/// 0; and closes what the handle had. The status is 0, or 2 where these are no ports of a trace, or
/// 4 where there is no memory.
#[unsafe(no_mangle)]
pub extern "C" fn ace_open(
    alloc: Global,
    checker: &mut AceChecker,
    version: u8,
    ports: u8,
    ace: u32,
    lines: usize,
) -> u8
    ensures hears { result ≡ 0 → IsHeader (given version ports ace)
        × Hears checker.new (limit_given lines) (given version ports ace) [] }
    ensures header { (result ≡ 2) ↔ ¬ IsHeader (given version ports ace) }
    ensures status { (result ≡ 0) ⊎ (result ≡ 2) ⊎ (result ≡ 4) }
    ensures closed { result ≢ 0 → session_of checker.new ≡ None }
{
    ace_close(alloc, checker);
    let Some(header) = header_of(version, ports, ace) else {
        return 2;
    };
    let most = if lines == 0 { usize::MAX } else { lines };
    let Some(session) = Session::new(alloc, header, most) else {
        return 4;
    };
    match Box::new(alloc, session) {
        Ok(session) => {
            checker.put(session);
            0
        }
        Err(_) => 4,
    }
}

/// Looks at the next event of the trace. The status is 0 where it breaks no rule, and neither did
/// one before: then the trace so far, under the names of its lines, is sound. The first that isn't
/// 0 is the status for good. It is 6 where the handle is closed.
#[unsafe(no_mangle)]
pub extern "C" fn ace_feed(alloc: Global, checker: &mut AceChecker, event: &AceEvent) -> u8
    ensures fine { (most : ℕ) (h : Header) (past : Trace) → Hears checker.old most h past
        → result ≡ 0 → IsEventThat h (event_of event.now)
        (λ e. Hears checker.new most h (e ∷ past) × IsSound h (named (e ∷ past))) }
    ensures ends { (most : ℕ) (h : Header) (past : Trace) → Hears checker.old most h past
        → result ≢ 0 → (ending : Ending) × HasEnded checker.new most h past ending
        × IsEnding most h past (event_of event.now) ending × (result ≡ status_of ending) }
    ensures ended { (most : ℕ) (h : Header) (past : Trace) (ending : Ending)
        → HasEnded checker.old most h past ending
        → (result ≡ status_of ending) × HasEnded checker.new most h past ending }
    ensures closed { session_of checker.old ≡ None
        → (result ≡ 6) × (session_of checker.new ≡ None) }
{
    match checker.take(alloc) {
        Some(mut session) => {
            let status = session.feed(event);
            checker.put(session);
            status
        }
        None => 6,
    }
}

/// Looks at the next events of the trace, up to the first that isn't fine: how many were. Where all
/// were, the trace so far is sound; else `ace_verdict` tells why the next one wasn't.
#[unsafe(no_mangle)]
pub extern "C" fn ace_feed_many(
    alloc: Global,
    checker: &mut AceChecker,
    events: &[AceEvent],
) -> usize
    ensures fed { (most : ℕ) (h : Header) (past : Trace) → Hears checker.old most h past
        → HasFed checker.new most h past events.now result }
    ensures ended { (most : ℕ) (h : Header) (past : Trace) (ending : Ending)
        → HasEnded checker.old most h past ending
        → (result ≡ 0) × HasEnded checker.new most h past ending }
    ensures closed { session_of checker.old ≡ None
        → (result ≡ 0) × (session_of checker.new ≡ None) }
{
    match checker.take(alloc) {
        Some(mut session) => {
            let fed = session.feed_many(events);
            checker.put(session);
            fed
        }
        None => 0,
    }
}

/// The answer about all events that were fed.
#[unsafe(no_mangle)]
pub extern "C" fn ace_verdict(alloc: Global, checker: &mut AceChecker) -> AceAnswer
    ensures fine { (most : ℕ) (h : Header) (past : Trace) → Hears checker.old most h past
        → (result ≡ fine (length past)) × Hears checker.new most h past × IsSound h (named past) }
    ensures ended { (most : ℕ) (h : Header) (past : Trace) (ending : Ending)
        → HasEnded checker.old most h past ending
        → (result ≡ answer_of ending (length past + 1)) × HasEnded checker.new most h past ending }
    ensures closed { session_of checker.old ≡ None
        → (result ≡ not_open) × (session_of checker.new ≡ None) }
{
    match checker.take(alloc) {
        Some(session) => {
            let answer = session.verdict();
            checker.put(session);
            answer
        }
        None => not_open(),
    }
}

/// Frees what the handle owns, and closes it.
#[unsafe(no_mangle)]
pub extern "C" fn ace_close(alloc: Global, checker: &mut AceChecker)
    ensures { session_of checker.new ≡ None }
{
    match checker.take(alloc) {
        Some(session) => drop(session),
        None => {}
    }
}
