//! What the rules of snoops, of read transfers and of memory writes ask of a grant, K13, K18 and
//! K24.

ghost use Rattle.std.specs.Prelude.{◌≡◌, ◌<◌, ◌≤◌, ℕ, true, false, not, ◌&&◌, ◌||◌, ◌==◌, Option, Some, is_some};
ghost use Rattle.ace_event.specs.declared.header.Header.{Header};
ghost use Rattle.ace_tables.specs.States.{is_invalid};
ghost use Rattle.ace_model.specs.Trace.{is_some_and};
ghost use Rattle.ace_model.specs.Transactions.{is_ace};
ghost use Rattle.std.specs.List.{list_all};
ghost use Rattle.ace_model.specs.Grants.{ports_below};
ghost use Rattle.ace_model.specs.SnoopRules.{has_snoop_code};
ghost use Rattle.ace_lineck.specs.Grants.{stage_at};
ghost use Rattle.ace_lineck.specs.States.{state_at};
ghost use Rattle.ace_lineck.specs.Kept.{is_unsnooped, is_sending, may_be_snooped, has_passed, is_passed_whole, is_settled, is_done_at, is_its};

use crate::grant::Grant;
use crate::kinds::has_snoop_code;
use crate::record::LineRecord;
use crate::stages::{Stage, stage_at};
use ace_codes::LineState;
use ace_event::Header;
use ace_model::Transaction;
use ace_model::kinds::is_ace;
use ace_tables::is_invalid;

#[inline(always)]
pub fn is_unsnooped(stage: Stage) -> bool
    ensures { result ≡ is_unsnooped stage }
{
    matches!(stage, Stage::Unsnooped)
}

#[inline(always)]
fn is_sending(stage: Stage) -> bool
    ensures { result ≡ is_sending stage }
{
    matches!(stage, Stage::Sending)
}

/// Another port may be snooped with this code under the grant.
#[inline(always)]
pub fn may_be_snooped(grant: &Option<Grant>, failed: bool, port: u8, snoop: u8) -> bool
    ensures { result ≡ may_be_snooped failed grant.now port snoop }
{
    match grant {
        None => false,
        Some(g) => {
            let unsnooped = is_unsnooped(stage_at(&g.stages, port));
            g.transaction.port != port
                && has_snoop_code(&g.transaction, snoop)
                && !failed
                && !g.begun
                && unsnooped
        }
    }
}

/// The granted transaction has passed data.
#[inline(always)]
pub fn has_passed(g: &Grant) -> bool
    ensures { result ≡ has_passed g.now }
{
    g.passed.is_some() && !g.written
}

/// There is a granted transaction, and it has passed data.
#[inline(always)]
pub fn has_passed_under(grant: &Option<Grant>) -> bool
    ensures { result ≡ is_some_and grant.now has_passed }
{
    match grant {
        None => false,
        Some(g) => has_passed(g),
    }
}

/// The burst of the passed data is whole.
#[inline(always)]
pub fn is_passed_whole(g: &Grant) -> bool
    ensures { result ≡ is_passed_whole g.now }
{
    match g.passed {
        None => false,
        Some(passed) => !is_sending(stage_at(&g.stages, passed.port)),
    }
}

/// The first or the second, where both are known: no jump depends on the first.
#[inline(always)]
pub fn either(a: bool, b: bool) -> bool
    ensures { result ≡ (a || b) }
{
    a || b
}

#[inline(always)]
pub(crate) fn both(a: bool, b: bool) -> bool
    ensures { result ≡ (a && b) }
{
    a && b
}

/// A port at this stage owes nothing, where `spared` says whether it need not be snooped.
#[inline(always)]
fn is_settled(stage: Stage, spared: bool) -> bool
    ensures { result ≡ is_settled stage spared }
{
    either(
        matches!(stage, Stage::Done),
        both(is_unsnooped(stage), spared),
    )
}

/// The snoops under the grant of a port at this stage, which has the line in this state, are done:
/// it owes nothing, and was snooped unless it need not be.
#[inline(always)]
fn is_done_with(g: &Grant, header: &Header, port: u8, stage: Stage, state: LineState) -> bool
    ensures { result ≡ is_settled stage ((port == g.now.transaction.port)
        || not (is_ace header.now port) || is_invalid state) }
{
    let spared = either(
        either(port == g.transaction.port, !is_ace(header, port)),
        is_invalid(state),
    );
    is_settled(stage, spared)
}

/// The same of the port, by the stage and the state that are kept of it.
#[inline(always)]
fn is_done_at(states: &[LineState; 32], g: &Grant, header: &Header, port: u8) -> bool
    requires { port < 32 }
    ensures { result ≡ is_done_at header.now g.now states.now port }
{
    let stage = g.stages[usize::from(port)];
    let state = states[usize::from(port)];
    is_done_with(g, header, port, stage, state)
}

/// Of how many ports of the header a stage and a state are kept: of all, as a header has no more
/// than 32.
#[inline(always)]
fn kept_ports(header: &Header) -> u8
    ensures most { result ≤ 32 }
    ensures all { header.now.ports ≤ 32 → result ≡ header.now.ports }
    ensures some { 32 < header.now.ports → result ≡ 32 }
{
    if header.ports <= 32 { header.ports } else { 32 }
}

/// Whichever port it is, a port at this stage, which has the line in this state, owes nothing and
/// need not be snooped: it has answered whole, or it wasn't snooped and doesn't have the line.
#[inline(always)]
fn is_quiet(stage: Stage, state: LineState) -> bool
    ensures { result ≡ is_settled stage (is_invalid state) }
{
    is_settled(stage, is_invalid(state))
}

/// Each port is quiet, which is asked of all at once, as no port's answer depends on another's or
/// on the header.
#[inline(always)]
fn is_each_quiet(stages: &[Stage; 32], states: &[LineState; 32]) -> bool
    ensures { result ≡ true → (q : ℕ)
        → is_settled (stage_at stages.now q) (is_invalid (state_at states.now q)) ≡ true }
{
    let mut all = true;
    for port in 0..32 {
        all = both(is_quiet(stages[port], states[port]), all);
    }
    all
}

/// The snoops of each port are done, port by port. So are those of a port beyond the 32 of which a
/// stage and a state are kept: it wasn't snooped, and doesn't have the line.
fn is_one_by_one_done(kept: &LineRecord, g: &Grant, header: &Header) -> bool
    ensures { result
        ≡ list_all (is_done_at header.now g.now kept.now.states) (ports_below header.now.ports) }
{
    let mut all = true;
    for port in 0..kept_ports(header) {
        all = both(is_done_at(&kept.states, g, header, port), all);
    }
    all
}

/// The snoops of each port are done. Mostly each is quiet, so that is asked first.
#[tactic(auto, using(crate::proofs::GrantLaws::quiet_done))]
pub fn is_each_done(kept: &LineRecord, g: &Grant, header: &Header) -> bool
    ensures { result
        ≡ list_all (is_done_at header.now g.now kept.now.states) (ports_below header.now.ports) }
{
    is_each_quiet(&g.stages, &kept.states) || is_one_by_one_done(kept, g, header)
}

/// The grant is that of the transaction.
#[inline(always)]
pub fn is_its(g: &Grant, x: &Transaction) -> bool
    ensures { result ≡ is_its g.now x.now }
{
    g.transaction.place == x.place
}
