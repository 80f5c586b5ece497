//! What K21 and K39 ask of what is kept.

ghost use Rattle.std.specs.Prelude.{◌≡◌, Some, if◌then◌else◌};
ghost use Rattle.ace_model.specs.ReadRules.{has_low_bits};
ghost use Rattle.ace_model.specs.Exclusives.{passed_at_grant};
ghost use Rattle.ace_portck.specs.Targets.{Recording};
ghost use Rattle.ace_sysck.specs.Results.{ResultsStand};
ghost use Rattle.ace_sysck.specs.Rules.{is_okay, completes_now};

use crate::messages::Messages;
use crate::results::Results;
use crate::syncs::Syncs;
use ace_codes::low_bits;
use ace_event::Header;
use ace_model::Transaction;
use ace_model::kinds::is_exclusive_store;

/// The read is an exclusive load, or an exclusive store that passed.
#[inline(always)]
pub fn is_okay(x: &Transaction, passed: Option<bool>) -> bool
    ensures { result ≡ is_okay x.now passed }
{
    x.lock && (!is_exclusive_store(x) || matches!(passed, Some(true)))
}

/// The same, by what is kept. Only a transaction with lock 1 is looked up.
#[inline(always)]
fn is_kept_okay(x: &Transaction, results: &Results) -> bool
    ensures { (r : Recording) → ResultsStand r results.now
        → result ≡ is_okay x.now (passed_at_grant r.past x.now.port x.now.id) }
{
    x.lock && is_okay(x, results.passed(x.port, x.id))
}

/// EXOKAY, or OKAY.
#[inline(always)]
fn low_bits_of(okay: bool) -> u8
    ensures { result ≡ (if okay then 1 else 0) }
{
    if okay { 1 } else { 0 }
}

/// K21, of an R of the read: the low two bits of its response are EXOKAY for an exclusive load and
/// for an exclusive store that passed, else OKAY (Arm IHI 0022E, C9).
#[inline(always)]
pub(crate) fn has_low_bits(results: &Results, x: &Transaction, resp: u8) -> bool
    ensures { (r : Recording) → ResultsStand r results.now
        → result ≡ has_low_bits r.past resp x.now }
{
    let okay = is_kept_okay(x, results);
    low_bits(resp) == low_bits_of(okay)
}

/// The port's last Sync may have its AC DVM Complete with the address.
#[inline(always)]
pub fn may_complete(
    header: &Header,
    messages: &Messages,
    syncs: &Syncs,
    port: u8,
    addr: u32,
) -> bool
    ensures { result ≡ completes_now header.now messages.now syncs.now port addr }
{
    addr == 0 && messages.awaits_complete(port) && syncs.completes_all(header, port)
}
