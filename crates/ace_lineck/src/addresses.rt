//! The AR or AW of a line transaction: the least rule of those that look at one line that it
//! breaks, and what it leaves of its line.

ghost use Rattle.std.specs.Prelude.{◌≡◌, None, Some, if◌then◌else◌};
ghost use Rattle.ace_model.specs.Kinds.{is_no_snoop_read, is_no_snoop_write};
ghost use Rattle.ace_tables.specs.StartStates.{starts_read, starts_write};
ghost use Rattle.ace_lineck.specs.States.{state_at};
ghost use Rattle.ace_lineck.specs.Uses.{goes_with, is_unknown, use_for};

use crate::LineCheck;
use crate::kinds::{is_no_snoop_read, is_no_snoop_write};
use crate::record::{LineRecord, Use};
use ace_codes::{ArKind, AwKind};
use ace_portck::unless;
use ace_tables::{start_read_ok, start_write_ok};

/// A transaction goes with the use of its line: a NoSnoop one, or another.
#[inline(always)]
fn goes_with(used: Use, unshared: bool) -> bool
    ensures { result ≡ goes_with used unshared }
{
    match used {
        Use::Unknown => true,
        Use::Shareable => !unshared,
        Use::NoSnoop => unshared,
    }
}

/// The least of K6 and K8 that an AR of a line read of the kind breaks, by what is kept of its
/// line.
#[inline(always)]
fn rule_of_read(kept: &LineRecord, port: u8, kind: ArKind) -> Option<u8>
    ensures { result ≡ (if starts_read kind (state_at kept.now.states port)
        then (if goes_with kept.now.used (is_no_snoop_read kind) then None else Some 8)
        else Some 6) }
{
    if !start_read_ok(kind, kept.state(port)) {
        return Some(6);
    }
    unless(goes_with(kept.used, is_no_snoop_read(kind)), Some(8))
}

/// The least of K6 and K8 that an AW of a line write of the kind breaks, by what is kept of its
/// line.
#[inline(always)]
fn rule_of_write(kept: &LineRecord, port: u8, kind: AwKind) -> Option<u8>
    ensures { result ≡ (if starts_write kind (state_at kept.now.states port)
        then (if goes_with kept.now.used (is_no_snoop_write kind) then None else Some 8)
        else Some 6) }
{
    if !start_write_ok(kind, kept.state(port)) {
        return Some(6);
    }
    unless(goes_with(kept.used, is_no_snoop_write(kind)), Some(8))
}

/// The line is used by NoSnoop transactions, or by others. Whether it becomes known so.
#[inline(always)]
fn use_line(kept: &mut LineRecord, unshared: bool) -> bool
    ensures used { kept.new ≡ record kept.old { used = use_for unshared } }
    ensures known { result ≡ is_unknown kept.old.used }
{
    let was_unknown = kept.is_unknown();
    kept.used = if unshared {
        Use::NoSnoop
    } else {
        Use::Shareable
    };
    was_unknown
}

impl LineCheck {
    ghost use Rattle.std.specs.Prelude.{◌<◌, ◌-◌, ◌^◌, ℕ, Bool, true, length};
    ghost use Rattle.ace_codes.specs.Reads.{ar_kind_of};
    ghost use Rattle.ace_codes.specs.Writes.{aw_kind_of};
    ghost use Rattle.ace_event.specs.declared.event.Event.{Event};
    ghost use Rattle.ace_event.specs.declared.event.Event.TheVariants.{Ar, Aw};
    ghost use Rattle.ace_model.specs.Accepted.{least_broken, least_of};
    ghost use Rattle.ace_model.specs.AddressRules.{is_no_snoop};
    ghost use Rattle.ace_model.specs.Kinds.{is_line_read, is_line_write};
    ghost use Rattle.ace_model.specs.Shares.{line_rules};
    ghost use Rattle.ace_model.specs.Trace.{Trace};
    ghost use Rattle.ace_model.specs.Transactions.{is_line, issued};
    ghost use Rattle.ace_model.specs.declared.transactions.Transaction.{Transaction};
    ghost use Rattle.ace_portck.specs.Targets.{Recording, after};
    ghost use Rattle.ace_lineck.specs.Stands.{Stands, HasRecord, IsRoomy, place_on};

    /// The least rule of the share that an AR of a line read of the kind breaks, whatever its lock
    /// is: K6, that the kind may start from the state in which its port has the line, or K8, that
    /// it goes with the use of the line (Arm IHI 0022E, C4). `place` is that of the line.
    #[inline(always)]
    pub fn rule_of_ar(&self, port: u8, kind: ArKind, place: Option<usize>) -> Option<u8>
        ensures { (r : Recording) (id addr snoop dom bar : ℕ) (lock : Bool) → Stands self.now r
            → place ≡ place_on self.now (Some addr)
            → ar_kind_of snoop dom bar ≡ Some kind → is_line_read kind ≡ true
            → result ≡ least_of line_rules r.header r.past (Ar port id addr snoop dom bar lock) }
    {
        rule_of_read(self.record(place), port, kind)
    }

    /// The least rule of the share that an AW of a line write of the kind breaks: K6, that the kind
    /// may start from the state in which its port has the line, or K8, that it goes with the use of
    /// the line (Arm IHI 0022E, C4). `place` is that of the line.
    #[inline(always)]
    pub fn rule_of_aw(&self, port: u8, kind: AwKind, place: Option<usize>) -> Option<u8>
        ensures { (r : Recording) (id addr snoop dom bar : ℕ) → Stands self.now r
            → place ≡ place_on self.now (Some addr)
            → aw_kind_of snoop dom bar ≡ Some kind → is_line_write kind ≡ true
            → result ≡ least_of line_rules r.header r.past (Aw port id addr snoop dom bar) }
    {
        rule_of_write(self.record(place), port, kind)
    }

    /// Takes an AR or AW that issues a line transaction and breaks no rule. `unshared` says whether
    /// the transaction is NoSnoop, and `place` is that of its line, which has a record.
    #[inline(always)]
    pub fn hear_address(&mut self, unshared: bool, place: Option<usize>)
        ensures stands { (r : Recording) (e : Event) (x : Transaction) → Stands self.old r
            → issued (length r.past) e ≡ Some x → is_line x ≡ true → unshared ≡ is_no_snoop x
            → place ≡ place_on self.old (Some x.addr) → HasRecord self.old (Some x.addr)
            → least_broken r.header r.past e ≡ None → length r.past < 2 ^ 64 - 1
            → Stands self.new (after r e) }
        ensures roomy { (n : ℕ) (past : Trace) → IsRoomy n past self.old → IsRoomy n past self.new }
    {
        let Some(place) = place else {
            return;
        };
        let Some(kept) = self.lines.get_index_mut(place) else {
            return;
        };
        if use_line(kept, unshared) {
            self.known = self.known.wrapping_add(1);
        }
    }
}
