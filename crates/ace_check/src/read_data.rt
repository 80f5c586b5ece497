//! Rs: an R moves what is kept of its port, and one of a line read what is kept of its line.

ghost use Rattle.std.specs.Prelude.{◌≡◌, ℕ, Bool, true, None, Some, IfOk, IfErr};
ghost use Rattle.ace_event.specs.declared.event.Channel.TheVariants.{Read};
ghost use Rattle.ace_event.specs.declared.event.Event.TheVariants.{R};
ghost use Rattle.ace_event.specs.declared.header.Header.{Header};
ghost use Rattle.ace_model.specs.Accepted.{least_broken};
ghost use Rattle.ace_model.specs.Exclusives.{has_failed};
ghost use Rattle.ace_model.specs.Kinds.{is_line_read};
ghost use Rattle.ace_model.specs.Trace.{Trace};
ghost use Rattle.ace_model.specs.Transactions.{outstanding};
ghost use Rattle.ace_portck.specs.Stands.{Stands as PortsTell};
ghost use Rattle.ace_portck.specs.Targets.{Recording};
ghost use Rattle.ace_lineck.specs.Stands.{Stands as LinesTell, place_on};
ghost use Rattle.ace_sysck.specs.Stands.{Stands as SystemTells};
ghost use Rattle.ace_check.specs.Heard.{IsHeard};
ghost use Rattle.ace_check.specs.ReadData.{IsNextTransfer};
ghost use Rattle.ace_check.specs.Shares.{SharesTell};

use crate::heard::Heard;
use crate::lineless_reads::rule_of_lineless_r;
use crate::shares::Shares;
use ace_codes::ArKind;
use ace_event::{Channel, Event};
use ace_lineck::LineCheck;
use ace_model::Transaction;
use ace_model::kinds::{is_line_read, read_kind};
use ace_portck::{PortCheck, Progress};
use ace_sysck::SysCheck;

/// The outstanding read whose next transfer the R is, and its kind; or else the least rule that the
/// R breaks: K1, K2 or K18.
#[inline(always)]
pub(crate) fn served_read(
    ports: &PortCheck,
    port: u8,
    id: u8,
    resp: u8,
    last: bool,
) -> Result<(&Progress, ArKind), u8>
    ensures found { (r : Recording) (word : ℕ) → PortsTell ports.now r
        → IfOk result (λ x. IsNextTransfer r.header r.past port id resp last word x.0.now x.1) }
    ensures broken { (r : Recording) (word : ℕ) → PortsTell ports.now r
        → IfErr result (λ k. least_broken r.header r.past (R port id resp last word) ≡ Some k) }
{
    let Some(x) = ports.outstanding(port, Channel::Read, id) else {
        return Err(ports.rule_of_no_r(port, resp));
    };
    let Some(kind) = read_kind(&x.transaction) else {
        return Err(18);
    };
    match ports.rule_of_r(port, x, kind, resp, last) {
        None => Ok((x, kind)),
        Some(rule) => Err(rule),
    }
}

/// The outstanding read is an exclusive store that failed (Arm IHI 0022E, C9).
#[inline(always)]
pub(crate) fn is_failed_store(system: &SysCheck, read: &Transaction) -> bool
    ensures { (r : Recording) (port id : ℕ) → SystemTells system.now r
        → outstanding r.header r.past port Read id ≡ Some read.now
        → result ≡ has_failed r.past read.now }
{
    read.lock && system.failed(read.port, read.id)
}

/// The least rule that the next transfer of the line read breaks: K18, K19 or K20 by its line, or
/// K21. `place` is that of its line.
#[inline(always)]
fn rule_of_line_r(
    lines: &LineCheck,
    system: &SysCheck,
    x: &Progress,
    kind: ArKind,
    place: Option<usize>,
    resp: u8,
    word: u128,
) -> Option<u8>
    ensures { (r : Recording) (port id : ℕ) (last : Bool) → LinesTell lines.now r
        → SystemTells system.now r
        → IsNextTransfer r.header r.past port id resp last word x.now kind
        → is_line_read kind ≡ true → place ≡ place_on lines.now (Some x.now.transaction.addr)
        → result ≡ least_broken r.header r.past (R port id resp last word) }
{
    let failed = is_failed_store(system, &x.transaction);
    if let Some(rule) = lines.rule_of_r(x, kind, failed, place, resp, word) {
        return Some(rule);
    }
    system.rule_of_r(&x.transaction, resp)
}

impl Shares {
    /// The least rule that an R breaks.
    pub(crate) fn rule_of_r(&self, port: u8, id: u8, resp: u8, last: bool, word: u128) -> Option<u8>
        ensures { (h : Header) (past : Trace) → SharesTell self.now h past
            → result ≡ least_broken h past (R port id resp last word) }
    {
        let (x, kind) = match served_read(&self.ports, port, id, resp, last) {
            Ok(found) => found,
            Err(rule) => return Some(rule),
        };
        if !is_line_read(kind) {
            return rule_of_lineless_r(&self.ports, &self.lines, &self.system, x, kind, resp, word);
        }
        let place = self.lines.place(Some(x.transaction.addr));
        rule_of_line_r(&self.lines, &self.system, x, kind, place, resp, word)
    }

    /// Hears an R.
    #[inline(never)]
    pub(crate) fn hear_r(&mut self, port: u8, id: u8, resp: u8, last: bool, word: u128) -> Heard
        ensures { IsHeard self.old (R port id resp last word) self.new result }
    {
        let (x, kind) = match served_read(&self.ports, port, id, resp, last) {
            Ok(found) => found,
            Err(rule) => return Heard::Broken(rule),
        };
        if !is_line_read(kind) {
            return self.hear_lineless_r(port, id, resp, last, word);
        }
        let place = self.lines.place(Some(x.transaction.addr));
        let rule = rule_of_line_r(&self.lines, &self.system, x, kind, place, resp, word);
        if let Some(rule) = rule {
            return Heard::Broken(rule);
        }
        self.lines.hear_beat(x, kind, place, last);
        self.ports.hear(&Event::R {
            port,
            id,
            resp,
            last,
            word,
        });
        Heard::Fine
    }
}
