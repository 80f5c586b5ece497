//! What the interconnect looks up of a line to answer the transaction that is granted on it, and
//! what that waits for, told without a rule: what can't come as long as it waits need not be asked
//! for.

ghost use Rattle.std.specs.Prelude.{◌≡◌, ◌≤◌, ℕ, false, length};
ghost use Rattle.std.specs.List.{list_any};
ghost use Rattle.ace_model.specs.Grants.{ports_below};
ghost use Rattle.ace_model.specs.Transactions.{is_ace};
ghost use Rattle.ace_lineck.specs.Grants.{stage_at};
ghost use Rattle.ace_lineck.specs.Waiting.{is_owing, is_owing_under, is_unsnooped_at, may_snoop_more};

use crate::LineCheck;
use crate::grant::Grant;
use crate::grant_rules::{either, has_passed_under};
use crate::memory_writes::{passed_kept, written_kept};
use crate::replies::{can_take, is_shared_under, must_be_shared, reply_kept};
use crate::stages::{Stage, stage_at};
use ace_event::{Header, Line};
use ace_model::Transaction;
use ace_model::kinds::{is_ace, read_kind, write_kind};
use ace_portck::WriteData;

/// A port at this stage was snooped, and its answer isn't whole.
#[inline(always)]
fn is_owing(stage: Stage) -> bool
    ensures { result ≡ is_owing stage }
{
    matches!(stage, Stage::Unanswered | Stage::Sending)
}

/// Some port was snooped, and its answer isn't whole. It is asked of all ports at once, as none
/// depends on another.
#[inline(always)]
fn is_some_owing(stages: &[Stage; 32]) -> bool
    ensures { result
        ≡ list_any (λ q. is_owing (stage_at stages.now q)) (ports_below (length stages.now)) }
{
    let mut some = false;
    for port in 0..32 {
        some = either(is_owing(stages[port]), some);
    }
    some
}

/// There is a granted transaction, and some port was snooped for it whose answer isn't whole.
#[inline(always)]
fn is_owing_under(grant: &Option<Grant>) -> bool
    ensures { result ≡ is_owing_under grant.now }
{
    match grant {
        None => false,
        Some(g) => is_some_owing(&g.stages),
    }
}

/// The port is another ACE port than that of the granted transaction, and wasn't snooped for it.
#[inline(always)]
fn is_unsnooped_at(g: &Grant, header: &Header, port: u8) -> bool
    ensures { result ≡ is_unsnooped_at header.now g.now port }
{
    matches!(stage_at(&g.stages, port), Stage::Unsnooped)
        && is_ace(header, port)
        && port != g.transaction.port
}

/// How many ports there are up to the last ACE port.
#[inline(always)]
fn ace_end(header: &Header) -> u8
    ensures { (q : ℕ) → result ≤ q → is_ace header.now q ≡ false }
{
    (32 - header.ace.leading_zeros()) as u8
}

/// Another ACE port wasn't snooped for the granted transaction.
fn is_some_unsnooped(g: &Grant, header: &Header) -> bool
    ensures { result
        ≡ list_any (is_unsnooped_at header.now g.now) (ports_below header.now.ports) }
{
    for port in 0..ace_end(header) {
        if is_unsnooped_at(g, header, port) {
            return true;
        }
    }
    false
}

/// There is a granted transaction, which hasn't begun, and another ACE port wasn't snooped for it.
#[inline(always)]
fn may_snoop_more(grant: &Option<Grant>, header: &Header) -> bool
    ensures { result ≡ may_snoop_more header.now grant.now }
{
    match grant {
        None => false,
        Some(g) => !g.begun && is_some_unsnooped(g, header),
    }
}

impl LineCheck {
    ghost use Rattle.std.specs.Prelude.{◌≡◌, ◌&&◌, ℕ, true, not, Some};
    ghost use Rattle.ace_model.specs.declared.transactions.Transaction.{Transaction as Issued};
    ghost use Rattle.ace_model.specs.Grants.{granted, has_passed_data, has_sharer};
    ghost use Rattle.ace_model.specs.Kinds.{is_read_not_shared_dirty, takes_passed_data};
    ghost use Rattle.ace_model.specs.ReadRules.{must_be_shared};
    ghost use Rattle.ace_model.specs.Replies.{passed_data, reply_of};
    ghost use Rattle.ace_model.specs.Trace.{is_some_and};
    ghost use Rattle.ace_model.specs.Transactions.{is_read, read_kind};
    ghost use Rattle.ace_model.specs.WriteRules.{data_of};
    ghost use Rattle.ace_portck.specs.Targets.{Recording, data_of_write};
    ghost use Rattle.ace_lineck.specs.Stands.{Stands, place_on};
    ghost use Rattle.ace_lineck.specs.Waiting.{has_unsnooped, is_answering};

    /// Whether the transaction that is granted on the line has passed data.
    pub fn has_passed_data(&self, place: Option<usize>) -> bool
        ensures { (r : Recording) (line : ℕ) → Stands self.now r
            → place ≡ place_on self.now (Some line)
            → result
            ≡ is_some_and (granted r.header r.past line) (has_passed_data r.header r.past) }
    {
        has_passed_under(&self.record(place).grant)
    }

    /// Whether an answer under the grant of the line has IsShared.
    pub fn has_sharer(&self, place: Option<usize>) -> bool
        ensures { (r : Recording) (line : ℕ) (x : Issued) → Stands self.now r
            → place ≡ place_on self.now (Some line)
            → granted r.header r.past line ≡ Some x → result ≡ has_sharer r.header r.past line }
    {
        is_shared_under(&self.record(place).grant)
    }

    /// Whether the response of the read, which is granted on the line, has to say IsShared.
    pub fn must_be_shared(&self, place: Option<usize>, x: &Transaction) -> bool
        ensures { (r : Recording) → Stands self.now r → place ≡ place_on self.now (Some x.now.addr)
            → granted r.header r.past x.now.addr ≡ Some x.now
            → result ≡ is_some_and (read_kind x.now) (must_be_shared r.header r.past x.now) }
    {
        match read_kind(x) {
            None => false,
            Some(kind) => must_be_shared(&self.header, self.has_sharer(place), x, kind),
        }
    }

    /// Whether the transaction, which is granted on the line, can take passed data: its response
    /// may say PassDirty beside what it has to say.
    pub fn can_take_passed_data(&self, place: Option<usize>, x: &Transaction) -> bool
        ensures { (r : Recording) → Stands self.now r → place ≡ place_on self.now (Some x.now.addr)
            → granted r.header r.past x.now.addr ≡ Some x.now
            → result ≡ is_some_and (read_kind x.now) (λ k. takes_passed_data k
            && not (is_read_not_shared_dirty k && has_sharer r.header r.past x.now.addr)) }
    {
        match read_kind(x) {
            None => false,
            Some(kind) => can_take(kind, self.has_sharer(place)),
        }
    }

    /// The reply of the read that is granted on the line.
    pub fn reply(&self, place: Option<usize>) -> Line
        ensures { (r : Recording) (line : ℕ) (x : Issued) → Stands self.now r
            → place ≡ place_on self.now (Some line)
            → granted r.header r.past line ≡ Some x → is_read x.chan ≡ true
            → result ≡ reply_of r.past x }
    {
        let kept = self.record(place);
        reply_kept(&kept.grant, &kept.memory)
    }

    /// The passed data of the line.
    pub fn passed_data(&self, place: Option<usize>) -> Option<Line>
        ensures { (r : Recording) (line : ℕ) → Stands self.now r
            → place ≡ place_on self.now (Some line)
            → result ≡ passed_data r.header r.past line }
    {
        passed_kept(&self.record(place).grant)
    }

    /// What the write of the line writes to memory, once its burst is whole.
    pub fn written(&self, place: Option<usize>, x: &Transaction, burst: &WriteData) -> Line
        ensures { (r : Recording) → Stands self.now r → place ≡ place_on self.now (Some x.now.addr)
            → data_of_write r.past x.now ≡ Some burst.now
            → Some result ≡ data_of r.header r.past x.now }
    {
        let kept = self.record(place);
        match write_kind(x) {
            None => burst.line,
            Some(kind) => written_kept(&kept.grant, &kept.memory, burst, kind),
        }
    }

    /// Some snoop under the grant of the line has no whole answer yet. Then the granted transaction
    /// can't begin, unless it is an exclusive store that failed: the first R of a read breaks K18,
    /// and the M of a write K24 (Arm IHI 0022E, C6).
    pub fn is_answering(&self, place: Option<usize>) -> bool
        ensures { (r : Recording) (line : ℕ) → Stands self.now r
            → place ≡ place_on self.now (Some line)
            → result ≡ is_answering r.header r.past line }
    {
        is_owing_under(&self.record(place).grant)
    }

    /// The granted transaction of the line hasn't begun, and another ACE port wasn't snooped under
    /// its grant. Where that is false, each snoop of the line breaks K1 or K13 (Arm IHI 0022E, C6).
    pub fn has_unsnooped(&self, place: Option<usize>) -> bool
        ensures { (r : Recording) (line : ℕ) → Stands self.now r
            → place ≡ place_on self.now (Some line)
            → result ≡ has_unsnooped r.header r.past line }
    {
        may_snoop_more(&self.record(place).grant, &self.header)
    }
}
