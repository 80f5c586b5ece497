// Callers call the ports of one state from their own threads. Tickets say whose turn it is.

ghost use Rattle.std.specs.Prelude.{◌≡◌, ◌%◌, true, ◌<◌, ◌≤◌, [], ◌∷◌, map};
ghost use Rattle.std.specs.Prelude.{IfOk, MatchResult};
ghost use Rattle.std.specs.List.{AllByRecursion};
ghost use Rattle.ace_history.specs.declared.entry.Entry.{Entry};
ghost use Rattle.ace_history.specs.Histories.{history_of, plan_with};
ghost use Rattle.ace_history.specs.Settled.{is_call};
ghost use Rattle.ace_history.specs.Stored.{is_ok};
ghost use Rattle.ace_model.specs.declared.plans.Op.TheVariants.{Ld, Ldx, St, Stx, Wb};
ghost use Rattle.ace_model.specs.Plans.{is_in_range, most_operations};
ghost use Rattle.ace_runs.specs.Follows.{Done};
ghost use Rattle.ace_live.specs.Entries.{Legal};
ghost use Rattle.ace_live.specs.Running.{blank, setting_of};
ghost use Rattle.ace_live.specs.Seats.{EachPort, IsCall, IsFull, LiveId, SomeSeat, Token, fresh};
ghost use Rattle.ace_live.specs.Views.{Begins, ports_from};

use crate::rule::{LiveRule, View};
use crate::seat::{await_turn, claim, deal, gather, serve, work};
use crate::{Full, LiveSeat, LiveState, Setting};
use ace_event::Outcome;
use ace_fabric::System;
use ace_history::Entry;
use ace_io::NoMemory;
use ace_model::{Op, PolicyWord};
use atomic_table::Table;
use std::alloc::Global;
use std::marker::Model;
use std::sync::Wait;

/// Whether the call was done.
fn is_ok(res: Outcome) -> bool
    ensures { result ≡ is_ok res }
{
    match res {
        Outcome::Ok => true,
        _ => false,
    }
}

/// The one value.
fn one_of<T: Drop>(alloc: Global, value: T) -> Result<Vec<T>, NoMemory>
    ensures { IfOk result (λ v. v.items ≡ value ∷ []) }
{
    let mut values = Vec::with_capacity(alloc, 1).map_err(|_| NoMemory)?;
    values.push(value).map_err(|_| NoMemory)?;
    Ok(values)
}

/// A running system whose ports are called from many threads, each with the seat of its port. Each
/// call waits for its turn: its promise holds where it returns.
#[derive(Drop)]
pub struct Live {
    table: Table<Option<LiveState>, View, Setting, LiveRule, Global>,
}

impl Model for Live {
    ghost use Rattle.std.specs.Prelude.{◌≡◌};
    ghost use Rattle.ace_live.specs.Seats.{LiveId};

    ghost Value = { LiveId };

    ghost view = { λ s. record { table = s.table.shared.table_id; setting = s.table.shared.key } };

    ghost invariant = { λ s.
        (s.table.shared.table_id.words ≡ 2) × (s.table.shared.table_id.slots ≡ 1) };
}

impl Live {
    /// A system of so many ACE ports with caches of so many lines, and room for so many calls. Seat
    /// p of the answer is that of port p, and has seen nothing.
    ///
    /// # Errors
    ///
    /// `NoMemory` where there is none for them.
    pub fn new(
        alloc: Global,
        ports: u8,
        ways: u8,
        policy: PolicyWord,
        room: u16,
    ) -> Result<(Live, Vec<LiveSeat>), NoMemory>
        requires some_port { 1 ≤ ports }
        requires most_ports { ports ≤ 8 }
        requires some_way { 1 ≤ ways }
        requires most_ways { ways ≤ 32 }
        requires some_room { 1 ≤ room }
        requires most_room { room ≤ most_operations }
        ensures live { IfOk result (λ r. r.0.setting
            ≡ record { ports = ports; ways = ways; policy = policy; room = room }) }
        ensures seats { IfOk result (λ r. r.1.items ≡ map (fresh r.0) (ports_from 0 ports)) }
    {
        let setting = Setting {
            ports,
            ways,
            policy,
            room,
        };
        let state = LiveState::new(alloc, ports, ways, policy, room)?;
        let slots = one_of(alloc, Some(state))?;
        let Ok((table, place)) = Table::new(alloc, &[0, 0], slots, &setting) else {
            return Err(NoMemory);
        };
        let Ok(seats) = deal(alloc, &table.shared, place, ports) else {
            drop(table);
            return Err(NoMemory);
        };
        Ok((Live { table }, seats))
    }

    /// The system, which is done. Its history is legal, is one that a seat had seen, and begins
    /// with what each seat had seen.
    pub fn close(self, seats: Vec<LiveSeat>) -> System
        requires own { AllByRecursion (λ (t : Token). t.live ≡ self) seats.items }
        requires ports { (0 < self.setting.ports) × EachPort self.setting.ports seats.items }
        ensures done { Done result.plan result.past }
        ensures setting { setting_of result ≡ self.setting }
        ensures plan { result.plan
            ≡ plan_with (blank self.setting) (history_of result.plan result.past) }
        ensures legal { Legal self.setting (history_of result.plan result.past) }
        ensures longest { SomeSeat (λ t. history_of result.plan result.past ≡ t.seen) seats.items }
        ensures begins { AllByRecursion
            (λ (t : Token). Begins t.seen (history_of result.plan result.past)) seats.items }
    {
        self.last_state(seats).end()
    }

    /// The state, when all callers are done.
    fn last_state(self, seats: Vec<LiveSeat>) -> LiveState
        requires own { AllByRecursion (λ (t : Token). t.live ≡ self) seats.items }
        requires ports { (0 < self.setting.ports) × EachPort self.setting.ports seats.items }
        ensures setting { result.setting ≡ self.setting }
        ensures longest { SomeSeat (λ t. result.history ≡ t.seen) seats.items }
        ensures begins { AllByRecursion (λ (t : Token). Begins t.seen result.history) seats.items }
    {
        let Live { table } = self;
        let place = gather(&table.shared, seats);
        let mut closed = table.close_with(place);
        let slot = closed.take(0);
        closed.free();
        let Some(state) = slot else { unreachable!() };
        state
    }

    /// A call of the seat's port: its entry, or that there is no room for it.
    fn perform<R: Wait>(&self, rt: &R, seat: LiveSeat, op: Op) -> (LiveSeat, Result<Entry, Full>)
        requires seat { seat.live ≡ self.now }
        requires op { (is_call op ≡ true) × (is_in_range op ≡ true) }
        ensures { MatchResult result.1
            (λ e. IsCall seat op result.0 e)
            (λ f. IsFull seat result.0 f.used) }
    {
        let LiveSeat { mut seat, port } = seat;
        let board = &self.table.shared;
        let ticket = claim(board, &mut seat);
        await_turn(rt, board, &mut seat, ticket);
        let answer = work(board, &mut seat, port, op);
        serve(board, &mut seat);
        (LiveSeat { seat, port }, answer)
    }

    /// Loads a word of the line: what the calls before this one in the history have stored there.
    ///
    /// # Errors
    ///
    /// `Full` where the history has as many calls as there was room for.
    pub fn load<R: Wait>(
        &self,
        rt: &R,
        seat: LiveSeat,
        addr: u32,
        w: u8,
    ) -> (LiveSeat, Result<u128, Full>)
        requires seat { seat.live ≡ self.now }
        requires line { addr % 64 ≡ 0 }
        requires word { w ≤ 3 }
        ensures { MatchResult result.1
            (λ x. (e : Entry) × (x ≡ e.word) × IsCall seat (Ld addr w) result.0 e)
            (λ f. IsFull seat result.0 f.used) }
    {
        let (seat, answer) = self.perform(rt, seat, Op::Ld { addr, w });
        match answer {
            Ok(entry) => (seat, Ok(entry.word)),
            Err(full) => (seat, Err(full)),
        }
    }

    /// The same exclusively: it reserves the line for a `stx` of the port.
    ///
    /// # Errors
    ///
    /// `Full` as of `load`.
    pub fn ldx<R: Wait>(
        &self,
        rt: &R,
        seat: LiveSeat,
        addr: u32,
        w: u8,
    ) -> (LiveSeat, Result<u128, Full>)
        requires seat { seat.live ≡ self.now }
        requires line { addr % 64 ≡ 0 }
        requires word { w ≤ 3 }
        ensures { MatchResult result.1
            (λ x. (e : Entry) × (x ≡ e.word) × IsCall seat (Ldx addr w) result.0 e)
            (λ f. IsFull seat result.0 f.used) }
    {
        let (seat, answer) = self.perform(rt, seat, Op::Ldx { addr, w });
        match answer {
            Ok(entry) => (seat, Ok(entry.word)),
            Err(full) => (seat, Err(full)),
        }
    }

    /// Stores a word of the line.
    ///
    /// # Errors
    ///
    /// `Full` as of `load`; then nothing was stored.
    pub fn store<R: Wait>(
        &self,
        rt: &R,
        seat: LiveSeat,
        addr: u32,
        w: u8,
        word: u128,
    ) -> (LiveSeat, Result<(), Full>)
        requires seat { seat.live ≡ self.now }
        requires line { addr % 64 ≡ 0 }
        requires word { w ≤ 3 }
        ensures { MatchResult result.1
            (λ _. (e : Entry) × IsCall seat (St addr w word) result.0 e)
            (λ f. IsFull seat result.0 f.used) }
    {
        let (seat, answer) = self.perform(rt, seat, Op::St { addr, w, word });
        match answer {
            Ok(_) => (seat, Ok(())),
            Err(full) => (seat, Err(full)),
        }
    }

    /// Stores a word of the line exclusively. The answer is whether it did: only where the port has
    /// the line reserved by its last `ldx`, and no other port has stored to it since.
    ///
    /// # Errors
    ///
    /// `Full` as of `load`; then nothing was stored.
    pub fn stx<R: Wait>(
        &self,
        rt: &R,
        seat: LiveSeat,
        addr: u32,
        w: u8,
        word: u128,
    ) -> (LiveSeat, Result<bool, Full>)
        requires seat { seat.live ≡ self.now }
        requires line { addr % 64 ≡ 0 }
        requires word { w ≤ 3 }
        ensures { MatchResult result.1
            (λ b. (e : Entry) × (b ≡ is_ok e.res) × IsCall seat (Stx addr w word) result.0 e)
            (λ f. IsFull seat result.0 f.used) }
    {
        let (seat, answer) = self.perform(rt, seat, Op::Stx { addr, w, word });
        match answer {
            Ok(entry) => (seat, Ok(is_ok(entry.res))),
            Err(full) => (seat, Err(full)),
        }
    }

    /// Writes the line back to memory. The answer is whether it did: the port may hold nothing of
    /// it that is to be written.
    ///
    /// # Errors
    ///
    /// `Full` as of `load`.
    pub fn write_back<R: Wait>(
        &self,
        rt: &R,
        seat: LiveSeat,
        addr: u32,
    ) -> (LiveSeat, Result<bool, Full>)
        requires seat { seat.live ≡ self.now }
        requires line { addr % 64 ≡ 0 }
        ensures { MatchResult result.1
            (λ b. (e : Entry) × (b ≡ is_ok e.res) × IsCall seat (Wb addr) result.0 e)
            (λ f. IsFull seat result.0 f.used) }
    {
        let (seat, answer) = self.perform(rt, seat, Op::Wb { addr });
        match answer {
            Ok(entry) => (seat, Ok(is_ok(entry.res))),
            Err(full) => (seat, Err(full)),
        }
    }
}
