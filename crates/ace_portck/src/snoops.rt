//! The snoops of one port that are under way.

ghost use Rattle.std.specs.Prelude.{◌≡◌, ◌==◌, slice_get};
ghost use Rattle.std.specs.Option.{option_copied};
ghost use Rattle.ace_tables.specs.Answers.{same_test};

use ace_codes::transfers_data;
use ace_event::Event;
use ace_model::Snoop;
use std::alloc::{AllocError, Global};
use std::collections::VecDeque;

/// The snoops of one port that are under way, the oldest first: those without an answer, and those
/// answered with data whose burst isn't whole.
#[derive(Drop)]
pub struct SnoopQueues {
    waiting: VecDeque<Snoop>,
    sending: VecDeque<Snoop>,
    /// How many CD beats of the first of `sending` came, 0 to 3.
    beats: u8,
}

/// The oldest of the queue, where it stands.
#[inline(always)]
fn oldest(queue: &VecDeque<Snoop>) -> Option<&Snoop>
    ensures { option_copied result ≡ slice_get queue.now.items 0 }
{
    queue.front()
}

/// The beat of this number, from 0, is the last of its burst exactly where it says so.
#[inline(always)]
fn says_last(last: bool, beat: u8) -> bool
    ensures { result ≡ same_test last (beat == 3) }
{
    last == (beat == 3)
}

impl SnoopQueues {
    ghost use Rattle.std.specs.Prelude.{ℕ, Bool, true, ◌∷◌, IfOk, IsOk, OnOk, OnErr, []};
    ghost use Rattle.ace_codes.specs.declared.state.LineState.{LineState};
    ghost use Rattle.ace_event.specs.declared.event.Event.TheVariants.{Ac, Cd, Cr};
    ghost use Rattle.ace_event.specs.declared.header.Header.{Header};
    ghost use Rattle.ace_model.specs.Accepted.{IsAccepted};
    ghost use Rattle.ace_model.specs.Replies.{next_sent_beat};
    ghost use Rattle.ace_model.specs.Shares.{k17_burst};
    ghost use Rattle.ace_model.specs.Snoops.{answered};
    ghost use Rattle.ace_model.specs.Trace.{Trace};
    ghost use Rattle.ace_portck.specs.Heard.{IsHeard};
    ghost use Rattle.ace_portck.specs.Snoops.{SnoopsStand, HasRoom, HasRoomForOne, IsRoomy};
    ghost use Rattle.ace_portck.specs.Targets.{sending};
    ghost use Rattle.ace_portck.specs.Unfinished.{RisesAt};

    /// The queues of a port without events, with room for so many snoops.
    pub fn with_room(alloc: Global, snoops: usize) -> Result<SnoopQueues, AllocError>
        ensures stands { IfOk result (λ s. (p : ℕ) → SnoopsStand [] p s) }
        ensures room { IfOk result (IsRoomy snoops) }
    {
        let waiting = VecDeque::with_capacity(alloc, snoops)?;
        let sending = VecDeque::with_capacity(alloc, snoops)?;
        Ok(SnoopQueues {
            waiting,
            sending,
            beats: 0,
        })
    }

    /// The snoop that the port's next CR answers, where it stands.
    #[inline(always)]
    pub fn unanswered(&self) -> Option<&Snoop>
        ensures { (past : Trace) (p : ℕ) → SnoopsStand past p self.now
            → option_copied result ≡ answered past p }
    {
        oldest(&self.waiting)
    }

    /// The snoop that the port's next CD sends data for.
    pub fn sending(&self) -> Option<Snoop>
        ensures { (past : Trace) (p : ℕ) → SnoopsStand past p self.now → result ≡ sending past p }
    {
        oldest(&self.sending).copied()
    }

    /// Which beat of its burst the port's next CD is, from 0.
    pub fn beat(&self) -> u8
        ensures { (past : Trace) (p : ℕ) → SnoopsStand past p self.now
            → result ≡ next_sent_beat past p }
    {
        self.beats
    }

    /// K17 but its data: the port's next CD belongs to an answer with data, and is the last beat
    /// exactly where it says so.
    #[inline(always)]
    pub fn may_send(&self, last: bool) -> bool
        ensures { (h : Header) (past : Trace) (p word : ℕ) → SnoopsStand past p self.now
            → result ≡ k17_burst h past (Cd p last word) }
    {
        self.sending().is_some() && says_last(last, self.beat())
    }

    /// There is room for one more snoop, and for its data.
    #[inline(always)]
    fn has_room_for_one(&self) -> bool
        ensures { result ≡ true → HasRoomForOne self.now }
    {
        let under_way = self.waiting.len() + self.sending.len();
        under_way < self.waiting.capacity() && under_way < self.sending.capacity()
    }

    /// Makes room for one more snoop, and for its data. Memory runs out only where the port has
    /// more snoops under way than ever before.
    #[inline(always)]
    pub fn make_room(&mut self) -> Result<(), AllocError>
        ensures stands { (past : Trace) (p : ℕ) → SnoopsStand past p self.old
            → SnoopsStand past p self.new }
        ensures room { OnOk result (HasRoomForOne self.new) }
        ensures cause { OnErr result ((past : Trace) (p addr snoop : ℕ)
            → SnoopsStand past p self.old → RisesAt past (Ac p addr snoop)) }
        ensures roomy { (snoops : ℕ) → IsRoomy snoops self.old → IsRoomy snoops self.new }
        ensures succeeds { HasRoomForOne self.old → IsOk result }
    {
        if self.has_room_for_one() {
            return Ok(());
        }
        self.grow()
    }

    /// Hears an event of the port that keeps the rules, with `place` events before it. It takes no
    /// memory.
    #[inline(always)]
    pub fn hear(&mut self, event: &Event, place: usize)
        ensures stands { (h : Header) (past : Trace) (p : ℕ) → IsHeard h past place event.now p
            → SnoopsStand past p self.old
            → HasRoom self.old event.now → SnoopsStand (event.now ∷ past) p self.new }
        ensures room { (snoops : ℕ) → IsRoomy snoops self.old → IsRoomy snoops self.new }
    {
        match *event {
            Event::Ac { addr, snoop, .. } => {
                let _full = self.waiting.push_back(Snoop { place, addr, snoop });
            }
            Event::Cr { resp, .. } => self.answer(resp),
            Event::Cd { .. } => self.send(),
            _ => {}
        }
    }

    /// Makes room for one more snoop, and for its data, where there is none.
    fn grow(&mut self) -> Result<(), AllocError>
        ensures stands { (past : Trace) (p : ℕ) → SnoopsStand past p self.old
            → SnoopsStand past p self.new }
        ensures room { OnOk result (HasRoomForOne self.new) }
        ensures cause { OnErr result ((past : Trace) (p addr snoop : ℕ)
            → SnoopsStand past p self.old → RisesAt past (Ac p addr snoop)) }
        ensures roomy { (snoops : ℕ) → IsRoomy snoops self.old → IsRoomy snoops self.new }
        ensures succeeds { HasRoomForOne self.old → IsOk result }
    {
        self.waiting.reserve(self.sending.len() + 1)?;
        self.sending.reserve(self.waiting.len() + 1)
    }

    /// The oldest unanswered snoop has its answer; where that announces data, they are awaited.
    #[inline(always)]
    fn answer(&mut self, resp: u8)
        ensures stands { (h : Header) (past : Trace) (p : ℕ) (st : LineState)
            → IsAccepted h (Cr p resp st ∷ past)
            → SnoopsStand past p self.old → SnoopsStand (Cr p resp st ∷ past) p self.new }
        ensures room { (snoops : ℕ) → IsRoomy snoops self.old → IsRoomy snoops self.new }
    {
        if let Some(snoop) = self.waiting.pop_front() {
            if transfers_data(resp) {
                let _full = self.sending.push_back(snoop);
            }
        }
    }

    /// One more beat of the oldest data that are awaited; the fourth makes them whole.
    #[inline(always)]
    fn send(&mut self)
        ensures stands { (h : Header) (past : Trace) (p : ℕ) (last : Bool) (word : ℕ)
            → IsAccepted h (Cd p last word ∷ past)
            → SnoopsStand past p self.old → SnoopsStand (Cd p last word ∷ past) p self.new }
        ensures room { (snoops : ℕ) → IsRoomy snoops self.old → IsRoomy snoops self.new }
    {
        if self.beats < 3 {
            self.beats += 1;
        } else {
            let _whole = self.sending.pop_front();
            self.beats = 0;
        }
    }
}
