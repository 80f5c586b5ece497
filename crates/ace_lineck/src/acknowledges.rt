//! RK and WK, by what is kept of their line: the least rule of the share that one breaks, and what
//! it leaves.

ghost use Rattle.std.specs.Prelude.{◌≡◌, ◌==◌, ◌<◌, ◌-◌, ◌^◌, ◌∷◌, ℕ, List, None, Some, length};
ghost use Rattle.ace_codes.specs.declared.state.LineState.{LineState};
ghost use Rattle.ace_event.specs.declared.event.Channel.{Channel};
ghost use Rattle.ace_event.specs.declared.header.Header.{Header};
ghost use Rattle.ace_event.specs.declared.line.Line.{Line};
ghost use Rattle.ace_model.specs.Trace.{Trace};
ghost use Rattle.ace_tables.specs.EndStates.{ends_write};
ghost use Rattle.ace_portck.specs.Acknowledges.{acknowledge};
ghost use Rattle.ace_portck.specs.declared.target.Progress.{Progress};
ghost use Rattle.ace_portck.specs.Target.{Target};
ghost use Rattle.ace_lineck.specs.Acknowledges.{IsOf};
ghost use Rattle.ace_lineck.specs.declared.record.Holder.{Holder};
ghost use Rattle.ace_lineck.specs.Grants.{GrantStands, IsGrantStep};
ghost use Rattle.ace_lineck.specs.Records.{LineStands, IsRecordStep};

use crate::LineCheck;
use crate::grant::Grant;
use crate::record::LineRecord;
use crate::replies::ends_as;
use crate::states::set_state;
use ace_codes::{ArKind, AwKind, LineState};
use ace_model::Transaction;
use ace_portck::{Progress, unless};
use ace_tables::end_write;

/// Both are the same transaction: they were issued at the same place.
#[inline(always)]
fn same(x: &Transaction, y: &Transaction) -> bool
    ensures { result ≡ (x.now.place == y.now.place) }
{
    x.place == y.place
}

/// The transaction has ended: it no longer has the grant of its line, if it had it.
#[inline(always)]
fn release(grant: &mut Option<Grant>, x: &Transaction)
    ensures { (h : Header) (past : Trace) (l port : ℕ) (c : Channel) (st : LineState) (t : Target)
        (xs : List Holder) (memory : Line)
        → IsGrantStep h past l (acknowledge c port st) t grant.old xs memory → IsOf t x.now
        → GrantStands h (acknowledge c port st ∷ past) l grant.new }
{
    match grant {
        None => {}
        Some(g) => {
            if same(x, &g.transaction) {
                *grant = None;
            }
        }
    }
}

/// What the RK or WK of the transaction leaves of what is kept of its line.
#[inline(always)]
fn end(kept: &mut LineRecord, x: &Transaction, port: u8, st: LineState)
    ensures stands { (h : Header) (past : Trace) (l : ℕ) (c : Channel) (t : Target)
        → IsRecordStep h past l (acknowledge c port st) t kept.old → IsOf t x.now
        → LineStands h (acknowledge c port st ∷ past) l kept.new }
    ensures room { length kept.new.holders.items ≡ length kept.old.holders.items }
    ensures used { kept.new.used ≡ kept.old.used }
{
    set_state(&mut kept.states, port, st);
    release(&mut kept.grant, x);
}

/// The state is an end state of a write of this kind, at whose end its port holds `held` of its
/// line.
#[inline(always)]
fn ends_write(kind: AwKind, held: LineState, st: LineState) -> bool
    ensures { result ≡ ends_write kind held st }
{
    end_write(kind, held).has(st)
}

impl LineCheck {
    ghost use Rattle.ace_event.specs.declared.event.Event.TheVariants.{Rk, Wk};
    ghost use Rattle.ace_model.specs.Accepted.{least_broken, least_of};
    ghost use Rattle.ace_model.specs.Exclusives.{has_failed};
    ghost use Rattle.ace_model.specs.Shares.{line_rules};
    ghost use Rattle.ace_model.specs.Transactions.{read_kind, write_kind};
    ghost use Rattle.ace_portck.specs.Targets.{Recording, after, line_in, transaction_in};
    ghost use Rattle.ace_lineck.specs.Stands.{Stands, IsRoomy, place_on};

    /// The least rule of the share that an RK of the read breaks: K23, that its state is an end
    /// state of the read, and that a MakeUnique has had its D (Arm IHI 0022E, C4). `kind` is that
    /// of the read, `failed` says whether it is an exclusive store that failed, and `place` is that
    /// of its line.
    #[inline(always)]
    pub fn rule_of_rk(
        &self,
        x: &Progress,
        kind: ArKind,
        failed: bool,
        place: Option<usize>,
        port: u8,
        st: LineState,
    ) -> Option<u8>
        ensures { (r : Recording) → Stands self.now r
            → transaction_in r.header r.past (Rk port st) ≡ Some x.now
            → read_kind x.now.transaction ≡ Some kind
            → failed ≡ has_failed r.past x.now.transaction
            → place ≡ place_on self.now (line_in r.header r.past (Rk port st))
            → result ≡ least_of line_rules r.header r.past (Rk port st) }
    {
        unless(
            ends_as(kind, self.record(place).state(port), failed, st, x),
            Some(23),
        )
    }

    /// The least rule of the share that a WK of the write breaks: K28, that its state is an end
    /// state of the write (Arm IHI 0022E, C4). `kind` is that of the write, and `place` that of its
    /// line.
    #[inline(always)]
    pub fn rule_of_wk(
        &self,
        kind: AwKind,
        place: Option<usize>,
        port: u8,
        st: LineState,
    ) -> Option<u8>
        ensures { (r : Recording) (x : Progress) → Stands self.now r
            → transaction_in r.header r.past (Wk port st) ≡ Some x
            → write_kind x.transaction ≡ Some kind
            → place ≡ place_on self.now (line_in r.header r.past (Wk port st))
            → result ≡ least_of line_rules r.header r.past (Wk port st) }
    {
        unless(
            ends_write(kind, self.record(place).state(port), st),
            Some(28),
        )
    }

    /// Takes an RK or WK of the transaction, which breaks no rule. `place` is that of its line.
    #[inline(always)]
    pub fn hear_acknowledge(&mut self, x: &Progress, place: Option<usize>, port: u8, st: LineState)
        ensures stands { (r : Recording) (c : Channel) → Stands self.old r
            → transaction_in r.header r.past (acknowledge c port st) ≡ Some x.now
            → place ≡ place_on self.old (line_in r.header r.past (acknowledge c port st))
            → least_broken r.header r.past (acknowledge c port st) ≡ None
            → length r.past < 2 ^ 64 - 1 → Stands self.new (after r (acknowledge c port st)) }
        ensures roomy { (n : ℕ) (past : Trace) → IsRoomy n past self.old → IsRoomy n past self.new }
    {
        let Some(place) = place else {
            return;
        };
        let Some(kept) = self.lines.get_index_mut(place) else {
            return;
        };
        end(kept, &x.transaction, port, st);
    }
}
