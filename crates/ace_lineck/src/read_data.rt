//! An R: the least rule of those that look at one line that it breaks, and what that of a line read
//! leaves of what is kept of its line.

ghost use Rattle.std.specs.Prelude.{◌≡◌, ◌<◌, ◌-◌, ◌^◌, ℕ, Bool, true, false, not, ◌&&◌, List, ◌∷◌, length, Option, Some, None, option_and_then, option_copied, option_map};
ghost use Rattle.ace_codes.specs.declared.kind.ArKind.{ArKind as Kind};
ghost use Rattle.ace_event.specs.declared.event.Channel.TheVariants.{Read};
ghost use Rattle.ace_event.specs.declared.event.Event.TheVariants.{R};
ghost use Rattle.ace_event.specs.declared.header.Header.{Header};
ghost use Rattle.ace_event.specs.declared.line.Line.{Line};
ghost use Rattle.ace_model.specs.declared.transactions.Transaction.{Transaction};
ghost use Rattle.ace_model.specs.Accepted.{least_of, least_broken};
ghost use Rattle.ace_model.specs.AddressRules.{k1};
ghost use Rattle.ace_model.specs.Copies.{received};
ghost use Rattle.ace_model.specs.Exclusives.{has_failed};
ghost use Rattle.ace_model.specs.Kinds.{is_line_read};
ghost use Rattle.ace_model.specs.Shares.{line_rules};
ghost use Rattle.ace_model.specs.Trace.{Trace};
ghost use Rattle.ace_model.specs.Transactions.{is_ace, outstanding, read_kind};
ghost use Rattle.ace_portck.specs.Targets.{Recording, after, progress_of};
ghost use Rattle.ace_portck.specs.declared.target.Progress.{Progress};
ghost use Rattle.ace_portck.specs.Target.{Target};
ghost use Rattle.ace_lineck.specs.declared.record.Holder.{Holder};
ghost use Rattle.ace_lineck.specs.declared.record.LineRecord.{LineRecord};
ghost use Rattle.ace_lineck.specs.Grants.{GrantStands, IsGrantStep};
ghost use Rattle.ace_lineck.specs.Holders.{HoldersStand, IsHoldersStep};
ghost use Rattle.ace_lineck.specs.Kept.{are_done, fits_bits, fits_reply, has_passed_for, is_its, is_shared_under, may_have_beat, takes_data};
ghost use Rattle.ace_lineck.specs.Beats.{rule_of_beat, rule_of_dataless, IsOfPlace};
ghost use Rattle.ace_lineck.specs.Records.{LineStands, IsRecordStep, has_three};
ghost use Rattle.ace_lineck.specs.Stands.{Stands, IsRoomy, place_on};

use crate::grant::Grant;
use crate::grant_rules::{has_passed, is_each_done, is_its, is_passed_whole};
use crate::kinds::{is_taker, reads_a_line};
use crate::lines::LineCheck;
use crate::record::{Holder, LineRecord};
use crate::replies::{fits_shared, reply_in, same_upper_bits, word_at};
use ace_codes::{ArKind, is_shared, passes_dirty};
use ace_event::{Header, Line};
use ace_model::kinds::is_ace;
use ace_portck::{Progress, unless};
use ace_tables::snoop_of_read;

/// The snoops under the grant of a read of this kind are done, or it is an exclusive store that
/// failed.
#[inline(always)]
fn are_done(kept: &LineRecord, g: &Grant, header: &Header, kind: ArKind, failed: bool) -> bool
    ensures { read_kind g.now.transaction ≡ Some kind
        → result ≡ are_done header.now failed g.now kept.now.states }
{
    snoop_of_read(kind).is_none() || failed || is_each_done(kept, g, header)
}

/// The passed data are for this kind of read, they are whole, and the response says PassDirty.
#[inline(always)]
fn takes_data(g: &Grant, kind: ArKind, resp: u8) -> bool
    ensures { (x : Transaction) → read_kind x ≡ Some kind → result ≡ takes_data g.now x resp }
{
    is_taker(kind) && is_passed_whole(g) && passes_dirty(resp)
}

/// The part of K18 that looks at the line: the transfer is one that the grant lets through.
#[inline(always)]
fn may_have_beat(
    kept: &LineRecord,
    g: &Grant,
    header: &Header,
    x: &Progress,
    kind: ArKind,
    failed: bool,
    resp: u8,
) -> bool
    ensures { read_kind x.now.transaction ≡ Some kind → IsOfPlace (Some g.now) x.now.transaction
        → result ≡ may_have_beat header.now failed (Some g.now) kept.now.states x.now resp }
{
    is_its(g, &x.transaction)
        && (x.transfers != 0 || are_done(kept, g, header, kind, failed))
        && (!has_passed(g) || takes_data(g, kind, resp))
}

/// K19, of a read that is granted.
#[inline(always)]
fn fits_bits(g: &Grant, header: &Header, x: &Progress, kind: ArKind, resp: u8) -> bool
    ensures { read_kind x.now.transaction ≡ Some kind → is_line_read kind ≡ true
        → is_its g.now x.now.transaction ≡ true
        → result ≡ fits_bits header.now (has_passed_for (Some g.now) x.now.transaction)
        (is_shared_under (Some g.now)) resp x.now }
{
    (!passes_dirty(resp) || has_passed(g))
        && fits_shared(header, g.shared, resp, &x.transaction, kind)
        && (!(passes_dirty(resp) || is_shared(resp)) || is_ace(header, x.transaction.port))
        && (x.transfers == 0 || same_upper_bits(resp, x.response))
}

/// K20: the word is that of the reply, or 0 where the transfer is dataless.
#[inline(always)]
fn fits_reply(kept: &LineRecord, x: &Progress, kind: ArKind, word: u128) -> bool
    ensures { read_kind x.now.transaction ≡ Some kind
        → result ≡ fits_reply kept.now.grant kept.now.memory word x.now }
{
    if reads_a_line(kind) {
        word == word_at(reply_in(&kept.grant, &kept.memory), x.transfers)
    } else {
        word == 0
    }
}

/// The least of K18, K19 and K20 that the transfer breaks, by what is kept of its line.
#[inline(always)]
fn rule_of_beat(
    kept: &LineRecord,
    header: &Header,
    x: &Progress,
    kind: ArKind,
    failed: bool,
    resp: u8,
    word: u128,
) -> Option<u8>
    ensures { read_kind x.now.transaction ≡ Some kind → is_line_read kind ≡ true
        → IsOfPlace kept.now.grant x.now.transaction
        → result ≡ rule_of_beat header.now failed kept.now x.now resp word }
{
    let Some(g) = &kept.grant else {
        return Some(18);
    };
    if !may_have_beat(kept, g, header, x, kind, failed, resp) {
        return Some(18);
    }
    if !fits_bits(g, header, x, kind, resp) {
        return Some(19);
    }
    unless(fits_reply(kept, x, kind, word), Some(20))
}

/// The least of K19, that the transfer has neither PassDirty nor IsShared, and K20, that it has the
/// word 0, that it breaks.
#[inline(always)]
fn rule_of_dataless(resp: u8, word: u128) -> Option<u8>
    ensures { result ≡ rule_of_dataless resp word }
{
    if passes_dirty(resp) || is_shared(resp) {
        return Some(19);
    }
    if word == 0 { None } else { Some(20) }
}

/// The transfer is the fourth of a read of a line.
#[inline(always)]
fn is_fourth(x: &Progress, kind: ArKind) -> bool
    ensures { read_kind x.now.transaction ≡ Some kind → result ≡ has_three (Some x.now) }
{
    x.transfers == 3 && reads_a_line(kind)
}

/// The reply of the granted read where it stands, once it is settled: a line of four words.
#[inline(always)]
fn settled_in(grant: &Option<Grant>) -> Option<&Line>
    ensures reply { option_copied result ≡ option_and_then (λ g. g.reply) grant.now }
    ensures words { (line : Line) → option_copied result ≡ Some line → length line.words ≡ 4 }
{
    match grant {
        None => None,
        Some(g) => match &g.reply {
            None => None,
            Some(line) => {
                let _first = line.words[0];
                Some(line)
            }
        },
    }
}

/// The line that the port of the read has received whole with the transfer: the reply where it
/// stands, at the fourth of a read of the line.
#[inline(always)]
fn received<'a>(grant: &'a Option<Grant>, x: &Progress, kind: ArKind) -> Option<&'a Line>
    ensures { (h : Header) (past : Trace) (l port id resp word : ℕ) (last : Bool) (t : Target)
        (kept : LineRecord) → kept.grant ≡ grant.now
        → IsRecordStep h past l (R port id resp last word) t kept
        → t.transaction ≡ Some x.now → read_kind x.now.transaction ≡ Some kind
        → option_copied result ≡ received past (R port id resp last word) port l }
{
    if is_fourth(x, kind) {
        settled_in(grant)
    } else {
        None
    }
}

/// The port has received the line whole.
#[inline(always)]
fn receive(holders: &mut Vec<Holder>, port: u8, whole: Option<&Line>)
    ensures stand { (h : Header) (past : Trace) (l id resp word : ℕ) (last : Bool) (t : Target)
        → IsHoldersStep h past l (R port id resp last word) t (option_copied whole.entry)
        holders.old.items
        → HoldersStand (R port id resp last word ∷ past) l holders.new.items }
    ensures room { length holders.new.items ≡ length holders.old.items }
{
    if let Some(line) = whole {
        let port = port as usize;
        if port < holders.len() {
            holders[port].copy = *line;
        }
    }
}

/// What the transfer leaves of the grant. `over` says whether it is the last one of an ACE-Lite
/// port, with which the transaction ends.
#[inline(always)]
fn serve(grant: &mut Option<Grant>, memory: &Line, over: bool)
    ensures { (h : Header) (past : Trace) (l port id resp word : ℕ) (last : Bool) (t : Target)
        (xs : List Holder)
        → IsGrantStep h past l (R port id resp last word) t grant.old xs memory.now
        → over ≡ (last && not (is_ace h port))
        → GrantStands h (R port id resp last word ∷ past) l grant.new }
{
    match grant {
        None => {}
        Some(g) => {
            if over {
                *grant = None;
            } else {
                g.hear_beat(memory);
            }
        }
    }
}

/// The transfer is the last one of an ACE-Lite port.
#[inline(always)]
fn ends_read(header: &Header, port: u8, last: bool) -> bool
    ensures { result ≡ (last && not (is_ace header.now port)) }
{
    last && !is_ace(header, port)
}

/// What the transfer leaves of what is kept of its line.
#[inline(always)]
fn advance(kept: &mut LineRecord, header: &Header, x: &Progress, kind: ArKind, last: bool)
    ensures stands { (past : Trace) (l id resp word : ℕ) (t : Target)
        → IsRecordStep header.now past l (R x.now.transaction.port id resp last word) t kept.old
        → t.transaction ≡ Some x.now → read_kind x.now.transaction ≡ Some kind
        → LineStands header.now (R x.now.transaction.port id resp last word ∷ past) l kept.new }
    ensures room { length kept.new.holders.items ≡ length kept.old.holders.items }
    ensures used { kept.new.used ≡ kept.old.used }
{
    let port = x.transaction.port;
    let whole = received(&kept.grant, x, kind);
    let over = ends_read(header, port, last);
    receive(&mut kept.holders, port, whole);
    serve(&mut kept.grant, &kept.memory, over);
}

impl LineCheck {
    /// The least rule of the share that an R of the line read breaks: of K18, that its grant lets
    /// it through, K19 or K20 (Arm IHI 0022E, C3.2.1, C4 and C6). `kind` is that of the read,
    /// `failed` says whether it is an exclusive store that failed, and `place` is that of its line.
    #[inline(always)]
    pub fn rule_of_r(
        &self,
        x: &Progress,
        kind: ArKind,
        failed: bool,
        place: Option<usize>,
        resp: u8,
        word: u128,
    ) -> Option<u8>
        ensures { (r : Recording) (port id : ℕ) (last : Bool) → Stands self.now r
            → option_map (progress_of r.header r.past) (outstanding r.header r.past port Read id)
            ≡ Some x.now
            → read_kind x.now.transaction ≡ Some kind → is_line_read kind ≡ true
            → failed ≡ has_failed r.past x.now.transaction
            → place ≡ place_on self.now (Some x.now.transaction.addr)
            → k1 r.header r.past (R port id resp last word) ≡ true
            → result ≡ least_of line_rules r.header r.past (R port id resp last word) }
    {
        let kept = self.record(place);
        rule_of_beat(kept, &self.header, x, kind, failed, resp, word)
    }

    /// The least rule of the share that the first R of a read without a line breaks: K19 or K20,
    /// since it has no data (Arm IHI 0022E, C3.2.1).
    #[inline(always)]
    pub fn rule_of_lineless_r(&self, resp: u8, word: u128) -> Option<u8>
        ensures { (r : Recording) (port id : ℕ) (last : Bool) (x : Progress) (k : Kind)
            → Stands self.now r
            → option_map (progress_of r.header r.past) (outstanding r.header r.past port Read id)
            ≡ Some x
            → read_kind x.transaction ≡ Some k → is_line_read k ≡ false → x.transfers ≡ 0
            → k1 r.header r.past (R port id resp last word) ≡ true
            → result ≡ least_of line_rules r.header r.past (R port id resp last word) }
    {
        rule_of_dataless(resp, word)
    }

    /// Takes an R of the line read, which breaks no rule. `kind` is that of the read, and `place`
    /// that of its line.
    #[inline(always)]
    pub fn hear_beat(&mut self, x: &Progress, kind: ArKind, place: Option<usize>, last: bool)
        ensures stands { (r : Recording) (port id resp word : ℕ) → Stands self.old r
            → option_map (progress_of r.header r.past) (outstanding r.header r.past port Read id)
            ≡ Some x.now
            → read_kind x.now.transaction ≡ Some kind → is_line_read kind ≡ true
            → place ≡ place_on self.old (Some x.now.transaction.addr)
            → least_broken r.header r.past (R port id resp last word) ≡ None
            → length r.past < 2 ^ 64 - 1
            → Stands self.new (after r (R port id resp last word)) }
        ensures roomy { (n : ℕ) (past : Trace)
            → IsRoomy n past self.old → IsRoomy n past self.new }
    {
        let Some(place) = place else {
            return;
        };
        let Some(kept) = self.lines.get_index_mut(place) else {
            return;
        };
        advance(kept, &self.header, x, kind, last);
    }
}
