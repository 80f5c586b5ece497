//! A CR: the least rule of the share that it breaks, and what it leaves of the line of its snoop.

ghost use Rattle.std.specs.Prelude.{◌≡◌, ◌∷◌, ℕ, List, Option, true, length};
ghost use Rattle.ace_codes.specs.declared.state.LineState.{LineState};
ghost use Rattle.ace_event.specs.declared.event.Event.TheVariants.{Cr};
ghost use Rattle.ace_event.specs.declared.header.Header.{Header};
ghost use Rattle.ace_event.specs.declared.line.Line.{Line};
ghost use Rattle.ace_tables.specs.Answers.{is_snoop_row};
ghost use Rattle.ace_model.specs.Trace.{Trace, implies};
ghost use Rattle.ace_portck.specs.Target.{Target};
ghost use Rattle.ace_lineck.specs.declared.record.Holder.{Holder};
ghost use Rattle.ace_lineck.specs.Grants.{GrantStands, IsGrantStep};
ghost use Rattle.ace_lineck.specs.Holders.{HolderStands, IsHolderStep, holder_at};
ghost use Rattle.ace_lineck.specs.Records.{IsRecordStep, LineStands};

use crate::LineCheck;
use crate::grant::Grant;
use crate::record::{Holder, LineRecord};
use crate::states::set_state;
use ace_codes::{LineState, SnoopKind, transfers_data};
use ace_event::Line;
use ace_portck::unless;
use ace_tables::is_snoop_row;

/// The answer goes with a memory update of the port, where one is outstanding: it is a row of the
/// snoop with an update.
#[inline(always)]
fn goes_beside_update(
    kind: SnoopKind,
    held: LineState,
    update: bool,
    resp: u8,
    st: LineState,
) -> bool
    ensures { result ≡ implies update (is_snoop_row kind held true resp st) }
{
    !update || is_snoop_row(kind, held, true, resp, st)
}

/// What is kept of the grant of the line, after the answer of the port, which has this copy.
#[inline(always)]
fn hear_in_grant(grant: &mut Option<Grant>, port: u8, resp: u8, copy: &Line)
    ensures { (h : Header) (past : Trace) (l : ℕ) (st : LineState) (t : Target)
        (xs : List Holder) (memory : Line)
        → IsGrantStep h past l (Cr port resp st) t grant.old xs memory
        → copy.now ≡ (holder_at xs port).copy
        → GrantStands h (Cr port resp st ∷ past) l grant.new }
{
    match grant {
        None => {}
        Some(g) => g.hear_answer(port, resp, copy),
    }
}

/// What is kept of a port, after its answer to a snoop of the line.
#[inline(always)]
fn hear_in_holder(holder: &mut Holder, resp: u8)
    ensures { (h : Header) (past : Trace) (p q l : ℕ) (st : LineState) (t : Target)
        (whole : Option Line)
        → IsHolderStep h past p l (Cr q resp st) t whole holder.old
        → HolderStands (Cr q resp st ∷ past) p l holder.new }
{
    if transfers_data(resp) {
        holder.sent = holder.copy;
    }
}

/// What is kept of the line, after the answer of the port to a snoop of the line.
#[inline(always)]
fn hear_in_record(kept: &mut LineRecord, port: u8, resp: u8, st: LineState)
    ensures stands { (h : Header) (past : Trace) (l : ℕ) (t : Target)
        → IsRecordStep h past l (Cr port resp st) t kept.old
        → LineStands h (Cr port resp st ∷ past) l kept.new }
    ensures room { length kept.new.holders.items ≡ length kept.old.holders.items }
    ensures used { kept.new.used ≡ kept.old.used }
{
    set_state(&mut kept.states, port, st);
    let own = port as usize;
    if own < kept.holders.len() {
        hear_in_grant(&mut kept.grant, port, resp, &kept.holders[own].copy);
        hear_in_holder(&mut kept.holders[own], resp);
    }
}

impl LineCheck {
    ghost use Rattle.std.specs.Prelude.{◌<◌, ◌-◌, ◌^◌, None, Some};
    ghost use Rattle.ace_codes.specs.declared.kind.SnoopKind.{SnoopKind as Kind};
    ghost use Rattle.ace_model.specs.declared.snoops.Snoop.{Snoop};
    ghost use Rattle.ace_model.specs.Accepted.{least_broken, least_of};
    ghost use Rattle.ace_model.specs.Progress.{has_update};
    ghost use Rattle.ace_model.specs.Shares.{line_rules};
    ghost use Rattle.ace_model.specs.Snoops.{snoops_a_line};
    ghost use Rattle.ace_portck.specs.SnoopAnswers.{IsAnswered};
    ghost use Rattle.ace_portck.specs.Targets.{Recording, after, line_of_snoop};
    ghost use Rattle.ace_lineck.specs.Stands.{Stands, IsRoomy, place_on};

    /// The least rule of the share that a CR breaks which answers a snoop of the kind: K15, that
    /// the response and the state are a row of the snoop and of the port's state, or K16, that they
    /// go with a memory update of the port, where one is outstanding (Arm IHI 0022E, C5). `place`
    /// is that of the line of the snoop, and `update` says of a line snoop whether the port has
    /// such an update of the line.
    #[inline(always)]
    pub fn rule_of_cr(
        &self,
        port: u8,
        resp: u8,
        st: LineState,
        kind: SnoopKind,
        place: Option<usize>,
        update: bool,
    ) -> Option<u8>
        ensures { (r : Recording) (x : Snoop) → Stands self.now r
            → IsAnswered r.past port x kind → place ≡ place_on self.now (line_of_snoop (Some x))
            → (snoops_a_line x.snoop ≡ true → update ≡ has_update r.header r.past port x.addr)
            → result ≡ least_of line_rules r.header r.past (Cr port resp st) }
    {
        let held = self.record(place).state(port);
        if !is_snoop_row(kind, held, false, resp, st) {
            return Some(15);
        }
        unless(goes_beside_update(kind, held, update, resp, st), Some(16))
    }

    /// Takes a CR that breaks no rule. `place` is that of the line of the snoop that it answers.
    #[inline(always)]
    pub fn hear_snoop_answer(&mut self, port: u8, resp: u8, st: LineState, place: Option<usize>)
        ensures stands { (r : Recording) (x : Snoop) (k : Kind) → Stands self.old r
            → IsAnswered r.past port x k
            → place ≡ place_on self.old (line_of_snoop (Some x))
            → least_broken r.header r.past (Cr port resp st) ≡ None
            → length r.past < 2 ^ 64 - 1
            → Stands self.new (after r (Cr port resp st)) }
        ensures roomy { (n : ℕ) (past : Trace) → IsRoomy n past self.old → IsRoomy n past self.new }
    {
        let Some(place) = place else {
            return;
        };
        let Some(kept) = self.lines.get_index_mut(place) else {
            return;
        };
        hear_in_record(kept, port, resp, st);
    }
}
