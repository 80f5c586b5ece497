//! An M: the least rule of the share that it breaks, and what it leaves of what is kept of its
//! line.

ghost use Rattle.std.specs.Prelude.{◌≡◌, ◌∷◌, ◌&&◌, ◌||◌, ◌==◌, ℕ, List, Option, None, Some, if◌then◌else◌, false, not, length, unwrap_or};
ghost use Rattle.std.specs.Option.{option_copied};
ghost use Rattle.ace_event.specs.declared.event.Channel.{Channel};
ghost use Rattle.ace_event.specs.declared.event.Event.TheVariants.{M};
ghost use Rattle.ace_event.specs.declared.header.Header.{Header};
ghost use Rattle.ace_event.specs.declared.line.Line.{Line};
ghost use Rattle.ace_tables.specs.SnoopKinds.{snoop_of_write};
ghost use Rattle.ace_model.specs.Copies.{same_line};
ghost use Rattle.ace_model.specs.Kinds.{is_update};
ghost use Rattle.ace_model.specs.Trace.{Trace, is_none_or, is_some_and};
ghost use Rattle.ace_model.specs.Transactions.{snoop_of};
ghost use Rattle.ace_portck.specs.Target.{Target};
ghost use Rattle.ace_lineck.specs.declared.record.Holder.{Holder};
ghost use Rattle.ace_lineck.specs.Beats.{IsOfPlace};
ghost use Rattle.ace_lineck.specs.Grants.{GrantStands, IsGrantStep, is_of};
ghost use Rattle.ace_lineck.specs.Kept.{are_done, has_passed, is_its, is_passed_whole, passed_kept, written_kept};
ghost use Rattle.ace_lineck.specs.MemoryRules.{may_write_burst, may_write_passed, rule_of_write};
ghost use Rattle.ace_lineck.specs.Records.{IsRecordStep, LineStands};

use crate::LineCheck;
use crate::grant::Grant;
use crate::grant_rules::{has_passed, is_each_done, is_its, is_passed_whole};
use crate::record::LineRecord;
use ace_codes::AwKind;
use ace_event::{Channel, Header, Line, merge};
use ace_model::Transaction;
use ace_model::kinds::{is_update, write_kind};
use ace_portck::{Progress, WriteData, unless};
use ace_tables::snoop_of_write;

/// The granted read has passed data that are whole.
#[inline(always)]
fn has_whole(grant: &Option<Grant>, x: &Transaction) -> bool
    ensures { result ≡ is_some_and grant.now
        (λ g. is_its g x.now && has_passed g && is_passed_whole g) }
{
    match grant {
        None => false,
        Some(g) => is_its(g, x) && has_passed(g) && is_passed_whole(g),
    }
}

/// No passed data are on their way.
#[inline(always)]
fn has_none_passed(grant: &Option<Grant>) -> bool
    ensures { result ≡ is_none_or grant.now (λ g. not (has_passed g)) }
{
    match grant {
        None => true,
        Some(g) => !has_passed(g),
    }
}

/// The passed data of the line, where they stand.
#[inline(always)]
fn passed(grant: &Option<Grant>) -> Option<&Line>
    ensures { option_copied result ≡ passed_kept grant.now }
{
    match grant {
        None => None,
        Some(g) => {
            if has_passed(g) {
                match &g.passed {
                    None => None,
                    Some(own) => Some(&own.line),
                }
            } else {
                None
            }
        }
    }
}

/// The passed data of the line.
#[inline(always)]
pub fn passed_kept(grant: &Option<Grant>) -> Option<Line>
    ensures { result ≡ passed_kept grant.now }
{
    passed(grant).copied()
}

/// The passed data of the line, where there are any, else memory.
#[inline(always)]
fn newest<'a>(grant: &'a Option<Grant>, memory: &'a Line) -> &'a Line
    ensures { result.now ≡ unwrap_or (passed_kept grant.now) memory.now }
{
    match passed(grant) {
        None => memory,
        Some(line) => line,
    }
}

/// What a write of this kind writes.
#[inline(always)]
pub fn written_kept(grant: &Option<Grant>, memory: &Line, burst: &WriteData, kind: AwKind) -> Line
    ensures { result ≡ written_kept (passed_kept grant.now) memory.now burst.now kind }
{
    match kind {
        AwKind::WriteUnique => merge(*newest(grant, memory), burst.strobe, burst.line),
        AwKind::WriteNoSnoop => merge(*memory, burst.strobe, burst.line),
        _ => burst.line,
    }
}

#[inline(always)]
fn same_line(a: &Line, b: &Line) -> bool
    ensures { result ≡ same_line a.now b.now }
{
    let [a0, a1, a2, a3] = a.words;
    let [b0, b1, b2, b3] = b.words;
    a0 == b0 && a1 == b1 && a2 == b2 && a3 == b3
}

/// The line is that of the passed data, where there are any.
#[inline(always)]
fn is_passed(grant: &Option<Grant>, line: &Line) -> bool
    ensures { result ≡ is_none_or (passed_kept grant.now) (same_line line.now) }
{
    match passed(grant) {
        None => true,
        Some(own) => same_line(line, own),
    }
}

/// The line is the one that a write of this kind writes.
#[inline(always)]
fn is_written(
    grant: &Option<Grant>,
    memory: &Line,
    burst: &WriteData,
    line: &Line,
    kind: AwKind,
) -> bool
    ensures { result ≡ same_line line.now
        (written_kept (passed_kept grant.now) memory.now burst.now kind) }
{
    same_line(line, &written_kept(grant, memory, burst, kind))
}

/// The snoops under the grant of a write of this kind are done.
#[inline(always)]
fn are_done(kept: &LineRecord, g: &Grant, header: &Header, kind: AwKind) -> bool
    ensures { snoop_of g.now.transaction ≡ snoop_of_write kind
        → result ≡ are_done header.now false g.now kept.now.states }
{
    snoop_of_write(kind).is_none() || is_each_done(kept, g, header)
}

/// The grant is that of the write of this kind, and the snoops under it are done.
#[inline(always)]
fn is_due_under(
    kept: &LineRecord,
    g: &Grant,
    header: &Header,
    x: &Transaction,
    kind: AwKind,
) -> bool
    ensures { snoop_of x.now ≡ snoop_of_write kind → IsOfPlace (Some g.now) x.now
        → result ≡ (is_its g.now x.now && are_done header.now false g.now kept.now.states) }
{
    is_its(g, x) && are_done(kept, g, header, kind)
}

/// The write of this kind is granted, and its snoops are done.
#[inline(always)]
fn is_due(kept: &LineRecord, header: &Header, x: &Transaction, kind: AwKind) -> bool
    ensures { snoop_of x.now ≡ snoop_of_write kind → IsOfPlace kept.now.grant x.now
        → result ≡ is_some_and kept.now.grant
        (λ g. is_its g x.now && are_done header.now false g kept.now.states) }
{
    match &kept.grant {
        None => false,
        Some(g) => is_due_under(kept, g, header, x, kind),
    }
}

/// It is a memory update, and no passed data are on their way.
#[inline(always)]
fn is_update_due(kept: &LineRecord, kind: AwKind) -> bool
    ensures { result ≡ (is_update kind && is_none_or kept.now.grant (λ g. not (has_passed g))) }
{
    is_update(kind) && has_none_passed(&kept.grant)
}

/// K24: the write of this kind, whose burst is whole, may write memory.
#[inline(always)]
fn may_write_burst(kept: &LineRecord, header: &Header, x: &Transaction, kind: AwKind) -> bool
    ensures { snoop_of x.now ≡ snoop_of_write kind → IsOfPlace kept.now.grant x.now
        → result ≡ may_write_burst header.now kept.now x.now kind }
{
    is_due(kept, header, x, kind) || is_update_due(kept, kind)
}

/// The least of K24 and K25 that an M of the line breaks, of a write of this kind with a whole
/// burst.
#[inline(always)]
fn rule_of_burst(
    kept: &LineRecord,
    header: &Header,
    x: &Transaction,
    kind: AwKind,
    burst: &WriteData,
    line: &Line,
) -> Option<u8>
    ensures { snoop_of x.now ≡ snoop_of_write kind → IsOfPlace kept.now.grant x.now
        → result ≡ (if may_write_burst header.now kept.now x.now kind
        then (if same_line line.now
        (written_kept (passed_kept kept.now.grant) kept.now.memory burst.now kind)
        then None else Some 25)
        else Some 24) }
{
    if !may_write_burst(kept, header, x, kind) {
        return Some(24);
    }
    unless(
        is_written(&kept.grant, &kept.memory, burst, line, kind),
        Some(25),
    )
}

/// K24: the read, which is granted, has passed data that are whole, and no transfer.
#[inline(always)]
fn may_write_passed(grant: &Option<Grant>, x: &Progress) -> bool
    ensures { result ≡ may_write_passed grant.now x.now }
{
    has_whole(grant, &x.transaction) && x.transfers == 0
}

/// The least of K24 and K25 that an M of the line breaks, of a read.
#[inline(always)]
fn rule_of_passed(grant: &Option<Grant>, x: &Progress, line: &Line) -> Option<u8>
    ensures { result ≡ (if may_write_passed grant.now x.now
        then (if is_none_or (passed_kept grant.now) (same_line line.now) then None else Some 25)
        else Some 24) }
{
    if !may_write_passed(grant, x) {
        return Some(24);
    }
    unless(is_passed(grant, line), Some(25))
}

/// The same, of any transaction. `burst` is that of a write, where it is whole and the write has
/// had no M.
#[inline(always)]
fn rule_of_write(
    kept: &LineRecord,
    header: &Header,
    x: &Progress,
    burst: Option<&WriteData>,
    line: &Line,
) -> Option<u8>
    ensures { IsOfPlace kept.now.grant x.now.transaction
        → result
        ≡ rule_of_write header.now kept.now x.now (option_copied burst.entry) line.now }
{
    match x.transaction.chan {
        Channel::Read => rule_of_passed(&kept.grant, x, line),
        Channel::Write => match burst {
            None => Some(24),
            Some(burst) => match write_kind(&x.transaction) {
                None => Some(24),
                Some(kind) => rule_of_burst(kept, header, &x.transaction, kind, burst, line),
            },
        },
    }
}

/// The granted transaction is this one.
#[inline(always)]
fn is_own(g: &Grant, x: &Progress) -> bool
    ensures { result ≡ is_of (Some x.now) g.now.transaction }
{
    x.transaction.place == g.transaction.place
}

/// What the M of the transaction leaves of the grant of its line.
#[inline(always)]
fn hear(grant: &mut Option<Grant>, x: &Progress)
    ensures { (h : Header) (past : Trace) (l p : ℕ) (c : Channel) (i : ℕ) (line : Line)
        (t : Target) (xs : List Holder) (memory : Line)
        → IsGrantStep h past l (M p c i line) t grant.old xs memory → t.transaction ≡ Some x.now
        → GrantStands h (M p c i line ∷ past) l grant.new }
{
    match grant {
        None => {}
        Some(g) => {
            let own = is_own(g, x);
            g.hear_write(own);
        }
    }
}

/// What the M of the transaction leaves of what is kept of its line: memory is what it writes.
#[inline(always)]
fn advance(kept: &mut LineRecord, x: &Progress, line: &Line)
    ensures stands { (h : Header) (past : Trace) (l p : ℕ) (c : Channel) (i : ℕ) (t : Target)
        → IsRecordStep h past l (M p c i line.now) t kept.old → t.transaction ≡ Some x.now
        → LineStands h (M p c i line.now ∷ past) l kept.new }
    ensures room { length kept.new.holders.items ≡ length kept.old.holders.items }
    ensures used { kept.new.used ≡ kept.old.used }
{
    hear(&mut kept.grant, x);
    kept.memory = *line;
}

impl LineCheck {
    ghost use Rattle.std.specs.Prelude.{◌<◌, ◌-◌, ◌^◌, true, option_map};
    ghost use Rattle.ace_model.specs.Accepted.{least_broken, least_of};
    ghost use Rattle.ace_model.specs.AddressRules.{k1};
    ghost use Rattle.ace_model.specs.Shares.{line_rules};
    ghost use Rattle.ace_model.specs.Transactions.{outstanding};
    ghost use Rattle.ace_portck.specs.Targets.{Recording, after, data_in, progress_of};
    ghost use Rattle.ace_lineck.specs.Stands.{Stands, IsRoomy, place_on};

    /// The least rule of the share that an M of the outstanding transaction breaks: K24, that it
    /// may write memory, or K25, that the line is what it writes (Arm IHI 0022E, C6). `burst` is
    /// that of a write, where it is whole and the write has had no M, and `place` that of the line.
    #[inline(always)]
    pub fn rule_of_m(
        &self,
        x: &Progress,
        burst: Option<&WriteData>,
        place: Option<usize>,
        line: &Line,
    ) -> Option<u8>
        ensures { (r : Recording) (p : ℕ) (c : Channel) (i : ℕ) → Stands self.now r
            → option_map (progress_of r.header r.past) (outstanding r.header r.past p c i)
            ≡ Some x.now
            → option_copied burst.entry ≡ data_in r.header r.past (M p c i line.now)
            → place ≡ place_on self.now (Some x.now.transaction.addr)
            → k1 r.header r.past (M p c i line.now) ≡ true
            → result ≡ least_of line_rules r.header r.past (M p c i line.now) }
    {
        rule_of_write(self.record(place), &self.header, x, burst, line)
    }

    /// The same, of an M that names no outstanding transaction, which breaks K24.
    pub fn rule_of_no_m(&self) -> u8
        ensures { (r : Recording) (p : ℕ) (c : Channel) (i : ℕ) (line : Line)
            → outstanding r.header r.past p c i ≡ None
            → Some result ≡ least_of line_rules r.header r.past (M p c i line) }
    {
        24
    }

    /// Takes an M of the outstanding transaction that breaks no rule. `place` is that of its line.
    #[inline(always)]
    pub fn hear_memory_write(&mut self, x: &Progress, place: Option<usize>, line: &Line)
        ensures stands { (r : Recording) (p : ℕ) (c : Channel) (i : ℕ) → Stands self.old r
            → option_map (progress_of r.header r.past) (outstanding r.header r.past p c i)
            ≡ Some x.now
            → place ≡ place_on self.old (Some x.now.transaction.addr)
            → least_broken r.header r.past (M p c i line.now) ≡ None
            → length r.past < 2 ^ 64 - 1 → Stands self.new (after r (M p c i line.now)) }
        ensures roomy { (n : ℕ) (past : Trace) → IsRoomy n past self.old → IsRoomy n past self.new }
    {
        let Some(place) = place else {
            return;
        };
        let Some(kept) = self.lines.get_index_mut(place) else {
            return;
        };
        advance(kept, x, line);
    }
}
