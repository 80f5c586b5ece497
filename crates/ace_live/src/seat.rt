// Seats, and the steps of a call: a ticket, the turn, the work, and the next turn.

ghost use Rattle.std.specs.Prelude.{◌≡◌, true, ◌<◌, List, [], ◌∷◌, ◌++◌, length, map};
ghost use Rattle.std.specs.Prelude.{IfOk, MatchResult};
ghost use Rattle.std.specs.List.{AllByRecursion};
ghost use Rattle.ace_history.specs.declared.entry.Entry.{Entry};
ghost use Rattle.ace_history.specs.Settled.{is_call};
ghost use Rattle.ace_model.specs.Plans.{is_in_range};
ghost use Rattle.ace_live.specs.Entries.{IsEntryOf, Legal};
ghost use Rattle.ace_live.specs.Seats.{HasAll, IsHoldingAt, IsIdleAt, IsJoinedAt, IsWaitingAt};
ghost use Rattle.ace_live.specs.Seats.{Token, fresh};
ghost use Rattle.ace_live.specs.Steps.{history_in};
ghost use Rattle.ace_live.specs.Views.{AllBy, Behind, ports_from};

use crate::rule::{Claim, FirstPort, LiveRule, Longer, Look, Serve, View};
use crate::{LiveState, Setting};
use ace_history::Entry;
use ace_model::Op;
use atomic_table::{Seat, Shared};
use std::alloc::{AllocError, Global};
use std::marker::Model;
use std::sync::Wait;

pub(crate) type Place = Seat<Option<LiveState>, View>;

pub(crate) type Board = Shared<Option<LiveState>, View, Setting, LiveRule>;

/// There is no room for another call: so many were made.
#[derive(Clone, Copy, Debug, PartialEq, Eq, Drop)]
pub struct Full {
    pub used: u16,
}

/// The right to call one port.
#[derive(Drop)]
pub struct LiveSeat {
    pub(crate) seat: Place,
    pub(crate) port: u8,
}

impl Model for LiveSeat {
    ghost use Rattle.std.specs.Prelude.{◌≡◌, ◌<◌, [], ◌∷◌};
    ghost use Rattle.ace_live.specs.Seats.{Token, IsIdleAt};

    ghost Value = { Token };

    ghost view = { λ s. record {
      live = record { table = s.seat.table_id; setting = s.seat.me.0.setting };
      port = s.port;
      seen = s.seat.me.0.seen;
    } };

    ghost invariant = { λ s.
        IsIdleAt s.seat.me.0.setting (s.port ∷ []) s.seat.me.0.seen s.seat.me
        × (s.port < s.seat.me.0.setting.ports) };
}

impl LiveSeat {
    fn into_place(self) -> Place
        ensures { (result.table_id ≡ self.live.table)
            × IsIdleAt self.live.setting (self.port ∷ []) self.seen result.me }
    {
        let LiveSeat { seat, port: _ } = self;
        seat
    }
}

/// Claims a turn. The answer is the ticket.
pub(crate) fn claim(board: &Board, seat: &mut Place) -> u64
    requires board { (seat.old.table_id ≡ board.now.table_id) × (board.now.table_id.words ≡ 2) }
    requires idle { IsIdleAt board.now.key seat.old.me.0.ports seat.old.me.0.seen seat.old.me }
    requires owner { 0 < length seat.old.me.0.ports }
    ensures board { (seat.new.table_id ≡ seat.old.table_id) × (seat.new.id ≡ seat.old.id) }
    ensures waiting { IsWaitingAt board.now.key seat.old.me.0.ports seat.old.me.0.seen result
        seat.new.me }
{
    board.fetch_add::<Claim>(seat, 0, 1)
}

/// Waits until the turn is that of the ticket.
pub(crate) fn await_turn<R: Wait>(rt: &R, board: &Board, seat: &mut Place, ticket: u64)
    requires board { (seat.old.table_id ≡ board.now.table_id) × (board.now.table_id.words ≡ 2) }
    requires waiting { IsWaitingAt board.now.key seat.old.me.0.ports seat.old.me.0.seen ticket
        seat.old.me }
    ensures board { (seat.new.table_id ≡ seat.old.table_id) × (seat.new.id ≡ seat.old.id) }
    ensures holding { IsHoldingAt board.now.key seat.old.me.0.ports seat.new.me.0.seen
        seat.new.me.0.seen seat.new.me }
    ensures behind { Behind seat.old.me.0.ports seat.old.me.0.seen seat.new.me.0.seen }
{
    for _ in rt.forever() {
        let turn = board.load::<Look>(seat, 1);
        if turn == ticket {
            return;
        }
        board.park(rt, 1, (turn % (1 << 32)) as u32);
    }
    unreachable!()
}

/// The call, where there is room for it.
fn call_or_full(state: &mut LiveState, port: u8, op: Op) -> Result<Entry, Full>
    requires op { (is_call op ≡ true) × (is_in_range op ≡ true) }
    requires port { port < state.old.setting.ports }
    ensures { MatchResult result
        (λ e. (state.new ≡ record state.old { history = state.old.history ++ e ∷ [] })
        × IsEntryOf port op e × Legal state.new.setting state.new.history)
        (λ f. (state.new ≡ state.old) × Legal state.old.setting state.old.history
        × (length state.old.history ≡ state.old.setting.room)
        × (f.used ≡ length state.old.history)) }
{
    if state.room() == 0 {
        return Err(Full { used: state.used() });
    }
    Ok(state.call(port, op))
}

/// Takes the state, makes the call where there is room for it, and puts the state back.
pub(crate) fn work(board: &Board, seat: &mut Place, port: u8, op: Op) -> Result<Entry, Full>
    requires op { (is_call op ≡ true) × (is_in_range op ≡ true) }
    requires board { (seat.old.table_id ≡ board.now.table_id) × (port < board.now.key.ports) }
    requires holding { IsHoldingAt board.now.key seat.old.me.0.ports seat.old.me.0.seen
        seat.old.me.0.seen seat.old.me }
    ensures board { (seat.new.table_id ≡ seat.old.table_id) × (seat.new.id ≡ seat.old.id) }
    ensures answer { MatchResult result
        (λ e. IsHoldingAt board.now.key seat.old.me.0.ports seat.old.me.0.seen
        (seat.old.me.0.seen ++ e ∷ []) seat.new.me
        × IsEntryOf port op e × Legal board.now.key (seat.old.me.0.seen ++ e ∷ []))
        (λ f. IsHoldingAt board.now.key seat.old.me.0.ports seat.old.me.0.seen
        seat.old.me.0.seen seat.new.me
        × Legal board.now.key seat.old.me.0.seen
        × (length seat.old.me.0.seen ≡ board.now.key.room)
        × (f.used ≡ length seat.old.me.0.seen)) }
{
    let Some(mut state) = board.exchange(seat, 0, None) else {
        unreachable!()
    };
    let answer = call_or_full(&mut state, port, op);
    drop(board.exchange(seat, 0, Some(state)));
    answer
}

/// Lets the next turn come, and wakes who waits for it.
pub(crate) fn serve(board: &Board, seat: &mut Place)
    requires board { (seat.old.table_id ≡ board.now.table_id) × (board.now.table_id.words ≡ 2) }
    requires holding { (new : List Entry)
        × IsHoldingAt board.now.key seat.old.me.0.ports seat.old.me.0.seen
        (seat.old.me.0.seen ++ new) seat.old.me
        × AllBy seat.old.me.0.ports new }
    ensures board { (seat.new.table_id ≡ seat.old.table_id) × (seat.new.id ≡ seat.old.id) }
    ensures idle { IsIdleAt board.now.key seat.old.me.0.ports (history_in seat.old.me.1)
        seat.new.me }
{
    board.fetch_add::<Serve>(seat, 1, 1);
    board.wake_all(1);
}

/// A seat for each port, out of one that has every port.
pub(crate) fn deal(
    alloc: Global,
    board: &Board,
    mut place: Place,
    ports: u8,
) -> Result<Vec<LiveSeat>, AllocError>
    requires board { (place.table_id ≡ board.now.table_id) × (board.now.table_id.words ≡ 2)
        × (board.now.key.ports ≡ ports) }
    requires idle { IsIdleAt board.now.key (ports_from 0 ports) [] place.me }
    ensures { IfOk result (λ v. v.items
        ≡ map (fresh record { table = board.now.table_id; setting = board.now.key })
        (ports_from 0 ports)) }
{
    let mut seats = Vec::with_capacity(alloc, ports as usize)?;
    let mut port = 0;
    while port < ports {
        let seat = board.split_seat::<FirstPort>(&mut place);
        seats.push(LiveSeat { seat, port })?;
        port += 1;
    }
    Ok(seats)
}

/// One seat that has what each of the seats had.
pub(crate) fn gather(board: &Board, mut seats: Vec<LiveSeat>) -> Place
    requires board { board.now.table_id.words ≡ 2 }
    requires own { AllByRecursion
        (λ (t : Token). t.live ≡ record { table = board.now.table_id; setting = board.now.key })
        seats.items }
    requires some { 0 < length seats.items }
    ensures board { (result.table_id ≡ board.now.table_id) × IsJoinedAt board.now.key result.me }
    ensures all { HasAll seats.items result.me.0 }
{
    let Some(first) = seats.pop() else {
        unreachable!()
    };
    let mut place = first.into_place();
    while let Some(seat) = seats.pop() {
        board.join_seat::<Longer>(&mut place, seat.into_place());
    }
    place
}
