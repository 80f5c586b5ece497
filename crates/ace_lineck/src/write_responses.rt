//! A B: the least rule of the share that it breaks, and what that of a line write leaves.

ghost use Rattle.std.specs.Prelude.{◌≡◌, ◌∷◌, ℕ, false, List, Some};
ghost use Rattle.ace_event.specs.declared.event.Event.TheVariants.{B};
ghost use Rattle.ace_event.specs.declared.header.Header.{Header};
ghost use Rattle.ace_event.specs.declared.line.Line.{Line};
ghost use Rattle.ace_model.specs.Kinds.{has_write_data};
ghost use Rattle.ace_model.specs.Trace.{Trace, implies};
ghost use Rattle.ace_model.specs.Transactions.{is_ace};
ghost use Rattle.ace_portck.specs.Target.{Target};
ghost use Rattle.ace_lineck.specs.declared.record.Holder.{Holder};
ghost use Rattle.ace_lineck.specs.Grants.{GrantStands, IsGrantStep, is_of};

use crate::LineCheck;
use crate::grant::Grant;
use ace_codes::AwKind;
use ace_model::kinds::{has_write_data, is_ace};
use ace_portck::{Progress, unless};

/// A write of this kind has had its M, if it has data.
#[inline(always)]
fn is_written(x: &Progress, kind: AwKind) -> bool
    ensures { result ≡ implies (has_write_data kind) x.now.written }
{
    !has_write_data(kind) || x.written
}

/// The transaction is the granted one.
#[inline(always)]
fn is_granted(g: &Grant, x: &Progress) -> bool
    ensures { result ≡ is_of (Some x.now) g.now.transaction }
{
    x.transaction.place == g.transaction.place
}

/// What the B of a write of an ACE-Lite port leaves of the grant of its line: none, if it was that
/// of the write.
#[inline(always)]
fn end_grant(grant: &mut Option<Grant>, x: &Progress)
    ensures { (h : Header) (past : Trace) (l port id resp : ℕ) (t : Target)
        (xs : List Holder) (memory : Line)
        → IsGrantStep h past l (B port id resp) t grant.old xs memory
        → t.transaction ≡ Some x.now → is_ace h port ≡ false
        → GrantStands h (B port id resp ∷ past) l grant.new }
{
    match grant {
        None => {}
        Some(g) => {
            if is_granted(g, x) {
                *grant = None;
            }
        }
    }
}

impl LineCheck {
    ghost use Rattle.std.specs.Prelude.{◌<◌, ◌-◌, ◌^◌, None, length, option_map};
    ghost use Rattle.ace_codes.specs.declared.kind.AwKind.{AwKind};
    ghost use Rattle.ace_event.specs.declared.event.Channel.TheVariants.{Write};
    ghost use Rattle.ace_model.specs.Accepted.{least_broken, least_of};
    ghost use Rattle.ace_model.specs.Shares.{line_rules};
    ghost use Rattle.ace_model.specs.Transactions.{outstanding, write_kind};
    ghost use Rattle.ace_portck.specs.Targets.{Recording, after, progress_of};
    ghost use Rattle.ace_portck.specs.LineWrites.{line_write};
    ghost use Rattle.ace_lineck.specs.Stands.{Stands, IsRoomy};

    /// The least rule of the share that a B of the outstanding write breaks: of K26, that a write
    /// with data has had its M (Arm IHI 0022E, C6). `kind` is that of the write.
    #[inline(always)]
    pub fn rule_of_b(&self, x: &Progress, kind: AwKind) -> Option<u8>
        ensures { (r : Recording) (port id resp : ℕ)
            → option_map (progress_of r.header r.past) (outstanding r.header r.past port Write id)
            ≡ Some x.now
            → write_kind x.now.transaction ≡ Some kind
            → result ≡ least_of line_rules r.header r.past (B port id resp) }
    {
        unless(is_written(x, kind), Some(26))
    }

    /// Takes a B of the line write that breaks no rule. With it the write of an ACE-Lite port ends,
    /// and its grant; that of an ACE port goes on until its WK (Arm IHI 0022E, C3.5).
    #[inline(always)]
    pub fn hear_response(&mut self, x: &Progress)
        ensures stands { (r : Recording) (port id resp : ℕ) (kind : AwKind) → Stands self.old r
            → option_map (progress_of r.header r.past) (outstanding r.header r.past port Write id)
            ≡ Some x.now
            → line_write x.now.transaction ≡ Some kind
            → least_broken r.header r.past (B port id resp) ≡ None → length r.past < 2 ^ 64 - 1
            → Stands self.new (after r (B port id resp)) }
        ensures roomy { (n : ℕ) (past : Trace) → IsRoomy n past self.old → IsRoomy n past self.new }
    {
        if is_ace(&self.header, x.transaction.port) {
            return;
        }
        self.end_lite_write(x);
    }

    /// The same, at an ACE-Lite port.
    fn end_lite_write(&mut self, x: &Progress)
        ensures stands { (r : Recording) (port id resp : ℕ) (kind : AwKind) → Stands self.old r
            → option_map (progress_of r.header r.past) (outstanding r.header r.past port Write id)
            ≡ Some x.now
            → line_write x.now.transaction ≡ Some kind → is_ace r.header port ≡ false
            → least_broken r.header r.past (B port id resp) ≡ None → length r.past < 2 ^ 64 - 1
            → Stands self.new (after r (B port id resp)) }
        ensures roomy { (n : ℕ) (past : Trace) → IsRoomy n past self.old → IsRoomy n past self.new }
    {
        let Some(place) = self.place(Some(x.transaction.addr)) else {
            return;
        };
        let Some(kept) = self.lines.get_index_mut(place) else {
            return;
        };
        end_grant(&mut kept.grant, x);
    }
}
