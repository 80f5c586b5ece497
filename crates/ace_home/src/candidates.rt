//! The first event of the burst of each step, where it breaks no rule.

ghost use Rattle.std.specs.Prelude.{◌≡◌, ◌<◌, ◌+◌, ◌==◌, ◌&&◌, ℕ, false, not, Option, if◌then◌else◌};
ghost use Rattle.std.specs.Int.{bit_at};
ghost use Rattle.ace_event.specs.declared.event.Channel.TheVariants.{Read as Reads, Write as Writes};
ghost use Rattle.ace_event.specs.declared.event.Event.TheVariants.{M, R};
ghost use Rattle.ace_model.specs.Copies.{is_line_read_transaction, word_of};
ghost use Rattle.ace_model.specs.Kinds.{beats_of};
ghost use Rattle.ace_model.specs.Plans.{Plan};
ghost use Rattle.ace_model.specs.Trace.{Trace, is_some_and};
ghost use Rattle.ace_model.specs.Transactions.{read_kind};
ghost use Rattle.ace_model.specs.Grants.{is_granted};
ghost use Rattle.ace_runs.specs.Bursts.{is_kept};
ghost use Rattle.ace_runs.specs.LineSteps.{bit_if, grant_burst, passed_burst, snoop_for, transfer_burst, write_burst};
ghost use Rattle.ace_portck.specs.declared.target.Progress.{Progress as Progresses};
ghost use Rattle.ace_portck.specs.Targets.{Recording, data_of_write};
ghost use Rattle.ace_lineck.specs.Stands.{Stands, place_on};
ghost use Rattle.ace_lineck.specs.Waiting.{is_answering};
ghost use Rattle.ace_home.specs.Among.{PortSets, has_snoop_among};
ghost use Rattle.ace_home.specs.Home.{HomeStands, IsOf, IsServed, Tells};
ghost use Rattle.ace_home.specs.Services.{IsReply, first_kept, has_snoop, if_kept};

use crate::home::Home;
use crate::queues::grant_of;
use crate::service::Service;
use ace_codes::{SnoopKind, ac_code};
use ace_event::{Event, Line};
use ace_lineck::{LineCheck, is_line_read_transaction, snoop_of};
use ace_model::kinds::{beats_of, is_ace, read_kind};
use ace_model::{Among, Transaction};
use ace_portck::{Progress, WriteData};

/// The port is one of these, of which bit p says whether port p is.
fn has_port(ports: u32, port: u8) -> bool
    ensures { port < 32 → result ≡ (bit_at ports port == 1) }
{
    port < 32 && ports >> port & 1 == 1
}

/// The M by which the transaction writes the line.
fn write_of(x: &Transaction, line: Line) -> Event
    ensures { result ≡ M x.now.port x.now.chan x.now.id line }
{
    Event::M {
        port: x.port,
        chan: x.chan,
        id: x.id,
        line,
    }
}

/// The AC of the port for the transaction, which causes such snoops.
pub fn snoop_for(x: &Transaction, kind: SnoopKind, port: u8) -> Event
    ensures { result ≡ snoop_for x.now kind port }
{
    Event::Ac {
        port,
        addr: x.addr,
        snoop: ac_code(kind),
    }
}

/// RRESP with PassDirty, IsShared and EXOKAY.
fn response_bits(dirty: bool, shared: bool, okay: bool) -> u8
    ensures { result ≡ bit_if 4 dirty + bit_if 8 shared + bit_if 1 okay }
{
    let dirty = if dirty { 4 } else { 0 };
    let shared = if shared { 8 } else { 0 };
    let okay = if okay { 1 } else { 0 };
    dirty + shared + okay
}

/// There are passed data, and the read can't take them.
fn is_stuck(dirty: bool, takes: bool) -> bool
    ensures { result ≡ (dirty && not takes) }
{
    dirty && !takes
}

/// The next transfer of the read is its last.
fn is_last(x: &Progress) -> bool
    ensures { result ≡ is_some_and (read_kind x.now.transaction)
        (λ k. x.now.transfers + 1 == beats_of k) }
{
    match read_kind(&x.transaction) {
        None => false,
        Some(kind) => u16::from(x.transfers) + 1 == u16::from(beats_of(kind)),
    }
}

/// The word of the next transfer of the read, of which this is the reply.
fn next_word(x: &Progress, reply: &Line) -> u128
    ensures { result ≡ (if is_line_read_transaction x.now.transaction
        then word_of reply.now x.now.transfers else 0) }
{
    if !is_line_read_transaction(&x.transaction) {
        return 0;
    }
    match reply.words.get(usize::from(x.transfers)) {
        None => 0,
        Some(word) => *word,
    }
}

/// The next R of the read, with this response, of which this is the reply.
fn transfer_of(x: &Progress, resp: u8, reply: &Line) -> Event
    ensures { result ≡ R x.now.transaction.port x.now.transaction.id resp
        (is_some_and (read_kind x.now.transaction) (λ k. x.now.transfers + 1 == beats_of k))
        (if is_line_read_transaction x.now.transaction then word_of reply.now x.now.transfers
        else 0) }
{
    Event::R {
        port: x.transaction.port,
        id: x.transaction.id,
        resp,
        last: is_last(x),
        word: next_word(x, reply),
    }
}

/// It hasn't begun, and some answer to its snoops isn't whole, so that it can't begin. That isn't
/// told of an exclusive one, which begins all the same where it fails. `place` is that of its line.
#[inline(always)]
pub fn is_held_up(lines: &LineCheck, place: Option<usize>, x: &Progress) -> bool
    ensures { (r : Recording) → Stands lines.now r
        → place ≡ place_on lines.now (Some x.now.transaction.addr)
        → result ≡ ((x.now.transfers == 0) && not x.now.transaction.lock
        && is_answering r.header r.past x.now.transaction.addr) }
{
    x.transfers == 0 && !x.transaction.lock && lines.is_answering(place)
}

impl Home {
    /// The event, where it breaks no rule.
    fn kept(&self, event: Event) -> Option<Event>
        ensures { (plan : Plan) (past : Trace) → HomeStands self.now plan past
            → result ≡ if_kept plan.header past event }
    {
        if self.shares.keeps(&event) {
            Some(event)
        } else {
            None
        }
    }

    /// The G of a transaction that waits for its line.
    pub(crate) fn grant(&self, x: &Progress) -> Option<Event>
        ensures { (plan : Plan) (past : Trace) (p : ℕ) → Tells self.now plan past p x.now
            → result ≡ first_kept plan.header past
            (grant_burst plan.header past x.now.transaction) }
    {
        let grant = grant_of(&x.transaction);
        if !self.shares.keeps(&grant) {
            return None;
        }
        if self.is_first_to_wait(&x.transaction) {
            Some(grant)
        } else {
            None
        }
    }

    /// The port may be snooped for the transaction, which causes such snoops. No ACE-Lite port may,
    /// so of such none is asked.
    pub(crate) fn may_snoop(&self, x: &Transaction, kind: SnoopKind, port: u8) -> bool
        ensures { (plan : Plan) (past : Trace) → HomeStands self.now plan past
            → result ≡ is_kept plan.header past (snoop_for x.now kind port) }
    {
        if !is_ace(&self.header, port) {
            return false;
        }
        self.shares.keeps(&snoop_for(x, kind, port))
    }

    /// A look that costs little: where it says no, no port may be snooped any more for the granted
    /// transaction of the line at the place, as it has begun or each was snooped.
    #[inline(always)]
    pub(crate) fn may_still_snoop(&self, place: Option<usize>) -> bool
        ensures { result ≡ false → (plan : Plan) (past : Trace) (p : ℕ) (x : Progresses)
            → IsServed self.now plan past p place x
            → has_snoop plan.header past x.transaction ≡ false }
    {
        self.shares.lines().has_unsnooped(place)
    }

    /// The port is one of these, and may be snooped for the transaction, which causes such snoops.
    pub(crate) fn may_snoop_of(
        &self,
        ports: u32,
        x: &Transaction,
        kind: SnoopKind,
        port: u8,
    ) -> bool
        ensures { (plan : Plan) (past : Trace) → HomeStands self.now plan past → port < 32
            → result ≡ ((bit_at ports port == 1)
            && is_kept plan.header past (snoop_for x.now kind port)) }
    {
        if !has_port(ports, port) {
            return false;
        }
        self.may_snoop(x, kind, port)
    }

    /// A port of the set may be snooped for the granted transaction. `place` is that of its line.
    pub(crate) fn has_snoop<F: Among>(&self, place: Option<usize>, x: &Progress, among: &F) -> bool
        ensures { (plan : Plan) (past : Trace) (p : ℕ) → IsServed self.now plan past p place x.now
            → result ≡ has_snoop_among (F.has among.now) plan.header past x.now.transaction }
    {
        if !self.may_still_snoop(place) {
            return false;
        }
        let Some(kind) = snoop_of(&x.transaction) else {
            return false;
        };
        let ports = among.may(x.transaction.addr);
        for port in 0..self.header.ports {
            if self.may_snoop_of(ports, &x.transaction, kind, port) {
                return true;
            }
        }
        false
    }

    /// The M of passed data that the read can't take.
    fn passed(&self, place: Option<usize>, x: &Progress) -> Option<Event>
        ensures { (plan : Plan) (past : Trace) (p : ℕ) → IsServed self.now plan past p place x.now
            → x.now.transaction.chan ≡ Reads
            → result ≡ first_kept plan.header past
            (passed_burst plan.header past x.now.transaction) }
    {
        let lines = self.shares.lines();
        if lines.can_take_passed_data(place, &x.transaction) {
            return None;
        }
        let Some(line) = lines.passed_data(place) else {
            return None;
        };
        self.kept(write_of(&x.transaction, line))
    }

    /// The next R of the read.
    fn transfer(&self, place: Option<usize>, x: &Progress) -> Option<Event>
        ensures { (plan : Plan) (past : Trace) (p : ℕ) → IsServed self.now plan past p place x.now
            → x.now.transaction.chan ≡ Reads
            → result ≡ first_kept plan.header past
            (transfer_burst plan.header past x.now.transaction) }
    {
        let read = &x.transaction;
        let lines = self.shares.lines();
        if is_held_up(lines, place, x) {
            return None;
        }
        let dirty = lines.has_passed_data(place);
        let takes = lines.can_take_passed_data(place, read);
        if is_stuck(dirty, takes) {
            return None;
        }
        let shared = lines.must_be_shared(place, read);
        let okay = self.shares.system().is_okay(read);
        let resp = response_bits(dirty, shared, okay);
        self.kept(transfer_of(x, resp, &lines.reply(place)))
    }

    /// The next step of a granted read, which is snooped. `place` is that of its line.
    pub(crate) fn answer(&self, place: Option<usize>, x: &Progress) -> Option<Service>
        ensures { (among : PortSets) (plan : Plan) (past : Trace) (p : ℕ)
            → IsServed self.now plan past p place x.now → x.now.transaction.chan ≡ Reads
            → IsReply among plan.header past x.now.transaction result }
    {
        if let Some(event) = self.passed(place, x) {
            return Some(Service::Passed(event));
        }
        match self.transfer(place, x) {
            None => None,
            Some(event) => Some(Service::Transfer(event)),
        }
    }

    /// The burst of a write that has written no memory yet, where it is whole.
    fn burst(&self, write: &Transaction) -> Option<WriteData>
        ensures { (plan : Plan) (past : Trace) (p : ℕ) → HomeStands self.now plan past
            → IsOf plan.header past p write.now
            → result ≡ data_of_write past write.now }
    {
        let ports = self.shares.ports();
        ports.burst(write.port, write.chan, write.id).copied()
    }

    /// The M of a granted write.
    pub(crate) fn write(&self, place: Option<usize>, x: &Progress) -> Option<Event>
        ensures { (plan : Plan) (past : Trace) (p : ℕ) → IsServed self.now plan past p place x.now
            → x.now.transaction.chan ≡ Writes
            → result ≡ first_kept plan.header past
            (write_burst plan.header past x.now.transaction) }
    {
        let write = &x.transaction;
        let lines = self.shares.lines();
        if is_held_up(lines, place, x) {
            return None;
        }
        let Some(burst) = self.burst(write) else {
            return None;
        };
        self.kept(write_of(write, lines.written(place, write, &burst)))
    }
}
