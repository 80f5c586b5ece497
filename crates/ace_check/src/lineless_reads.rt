//! Rs of reads without a line, halves of barriers and the reads of DVM: they have no data, and may
//! complete a barrier or a Sync.

ghost use Rattle.std.specs.Prelude.{◌≡◌, ℕ, Bool, false, Some};
ghost use Rattle.ace_event.specs.declared.event.Channel.TheVariants.{Read};
ghost use Rattle.ace_event.specs.declared.event.Event.TheVariants.{R};
ghost use Rattle.ace_event.specs.declared.header.Header.{Header};
ghost use Rattle.ace_model.specs.Accepted.{least_broken, least_of};
ghost use Rattle.ace_model.specs.Kinds.{is_line_read};
ghost use Rattle.ace_model.specs.Shares.{system_rules};
ghost use Rattle.ace_model.specs.Trace.{Trace, is_some_and};
ghost use Rattle.ace_model.specs.Transactions.{is_line, outstanding, read_kind};
ghost use Rattle.ace_portck.specs.Stands.{Stands as PortsTell};
ghost use Rattle.ace_portck.specs.Targets.{Recording};
ghost use Rattle.ace_lineck.specs.Stands.{Stands as LinesTell};
ghost use Rattle.ace_sysck.specs.Stands.{Stands as SystemTells};
ghost use Rattle.ace_check.specs.Heard.{IsHeard};
ghost use Rattle.ace_check.specs.ReadData.{IsNextTransfer};
ghost use Rattle.ace_check.specs.Shares.{SharesTell};

use crate::heard::Heard;
use crate::read_data::served_read;
use crate::shares::Shares;
use ace_codes::ArKind;
use ace_event::Event;
use ace_lineck::LineCheck;
use ace_model::Transaction;
use ace_portck::{PortCheck, Progress};
use ace_sysck::SysCheck;

/// The least rule about the system that an R of the outstanding read breaks: K21, K34 of half of a
/// barrier, or K37 of part of a DVM message.
#[inline(always)]
fn system_rule_of_r(
    ports: &PortCheck,
    system: &SysCheck,
    x: &Transaction,
    kind: ArKind,
    resp: u8,
) -> Option<u8>
    ensures { (r : Recording) (port id : ℕ) (last : Bool) (word : ℕ) → PortsTell ports.now r
        → SystemTells system.now r → outstanding r.header r.past port Read id ≡ Some x.now
        → read_kind x.now ≡ Some kind
        → result ≡ least_of system_rules r.header r.past (R port id resp last word) }
{
    match kind {
        ArKind::Barrier => {
            let unordered = ports.first_unordered(x.port);
            let incomplete = ports.first_incomplete(x.port);
            system.rule_of_half_r(x, resp, unordered, incomplete)
        }
        ArKind::DvmMessage => system.rule_of_message_r(x, resp),
        _ => system.rule_of_r(x, resp),
    }
}

/// The least rule that the next transfer of the read without a line breaks: K19 or K20, since it
/// has no data, or one about the system.
#[inline(always)]
pub(crate) fn rule_of_lineless_r(
    ports: &PortCheck,
    lines: &LineCheck,
    system: &SysCheck,
    x: &Progress,
    kind: ArKind,
    resp: u8,
    word: u128,
) -> Option<u8>
    ensures { (r : Recording) (port id : ℕ) (last : Bool) → PortsTell ports.now r
        → LinesTell lines.now r → SystemTells system.now r
        → IsNextTransfer r.header r.past port id resp last word x.now kind
        → is_line_read kind ≡ false
        → result ≡ least_broken r.header r.past (R port id resp last word) }
{
    if let Some(rule) = lines.rule_of_lineless_r(resp, word) {
        return Some(rule);
    }
    system_rule_of_r(ports, system, &x.transaction, kind, resp)
}

impl Shares {
    /// Hears an R of no line read.
    #[inline(never)]
    pub(crate) fn hear_lineless_r(
        &mut self,
        port: u8,
        id: u8,
        resp: u8,
        last: bool,
        word: u128,
    ) -> Heard
        ensures { ((h : Header) (past : Trace) → SharesTell self.old h past
            → is_some_and (outstanding h past port Read id) is_line ≡ false)
            → IsHeard self.old (R port id resp last word) self.new result }
    {
        let (x, kind) = match served_read(&self.ports, port, id, resp, last) {
            Ok(found) => found,
            Err(rule) => return Heard::Broken(rule),
        };
        let rule = rule_of_lineless_r(&self.ports, &self.lines, &self.system, x, kind, resp, word);
        if let Some(rule) = rule {
            return Heard::Broken(rule);
        }
        self.system.complete_transaction(&x.transaction);
        self.ports.hear(&Event::R {
            port,
            id,
            resp,
            last,
            word,
        });
        Heard::Fine
    }
}
