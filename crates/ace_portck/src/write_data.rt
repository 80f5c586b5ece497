//! The write data of one port.

ghost use Rattle.std.specs.Prelude.{◌≡◌, ◌<◌, ◌++◌, ◌∷◌, List, [], length, option_map, find, ◌==◌};
ghost use Rattle.std.specs.Option.{option_copied};
ghost use Rattle.ace_model.specs.Kinds.{is_write_line_unique};
ghost use Rattle.ace_model.specs.Shares.{fits_burst, fits_strobe};
ghost use Rattle.ace_model.specs.Writes.{Beat};
ghost use Rattle.ace_portck.specs.WriteData.{IsPart, data_of_burst};

use crate::pending::issued;
use crate::target::WriteData;
use ace_codes::AwKind;
use ace_event::{Channel, Event, Line};
use ace_io::NoMemory;
use ace_model::Transaction;
use ace_model::kinds::{has_write_data, is_update, write_kind};
use std::alloc::Global;
use std::collections::VecDeque;

/// How many identifiers there are.
const IDS: usize = 256;

/// All strobes of a beat.
const FULL: u16 = 0xffff;

/// The beats of a burst that isn't whole.
#[derive(Clone, Copy, Debug, PartialEq, Eq)]
struct Part {
    /// How many beats came, 0 to 3.
    beats: u8,
    /// Their strobes and words. Those to come are 0.
    strobes: [u16; 4],
    words: [u128; 4],
}

/// The whole burst of a write.
#[derive(Clone, Copy, Debug, PartialEq, Eq)]
struct Burst {
    id: u8,
    sent: WriteData,
}

/// The writes with data of one port that have had no M, and the beats of their bursts. It has room
/// for a write under each identifier.
#[derive(Drop)]
pub struct WriteBursts {
    /// The writes whose bursts aren't whole, in the order of their AW.
    filling: VecDeque<Transaction>,
    /// The beats of the first of them.
    part: Part,
    /// The bursts of the others.
    whole: Vec<Burst>,
}

/// A write of a whole line.
fn is_write_line_unique(kind: AwKind) -> bool
    ensures { result ≡ is_write_line_unique kind }
{
    matches!(kind, AwKind::WriteLineUnique)
}

/// The strobe is one that the kind asks for.
fn fits_strobe(strobe: u16, kind: AwKind) -> bool
    ensures { result ≡ fits_strobe strobe kind }
{
    !(is_update(kind) || is_write_line_unique(kind)) || strobe == FULL
}

/// The beat of this number is the last exactly where it says so, and has the strobe that the kind
/// of the write asks for.
fn fits_burst(beat: u8, strobe: u16, last: bool, write: &Transaction) -> bool
    ensures { result ≡ fits_burst beat strobe last write.now }
{
    let fits = match write_kind(write) {
        Some(kind) => fits_strobe(strobe, kind),
        None => true,
    };
    last == (beat == 3) && fits
}

/// The burst under the identifier.
fn find_burst(bursts: &[Burst], id: u8) -> Option<&Burst>
    ensures { option_copied result ≡ find (λ b. b.id == id) bursts.now }
{
    bursts.iter().find(|burst| burst.id == id)
}

/// What it sent.
#[inline(always)]
fn sent(bursts: &[Burst], id: u8) -> Option<&WriteData>
    ensures { option_copied result ≡ option_map (λ b. b.sent) (find (λ b. b.id == id) bursts.now) }
{
    match find_burst(bursts, id) {
        Some(burst) => Some(&burst.sent),
        None => None,
    }
}

impl Part {
    /// No beat.
    fn new() -> Part
        ensures { IsPart [] result }
    {
        Part {
            beats: 0,
            strobes: [0; 4],
            words: [0; 4],
        }
    }

    /// One more beat.
    #[inline(always)]
    fn add(&mut self, strobe: u16, word: u128)
        ensures { (bs : List Beat) → length bs < 4 → IsPart bs self.old
            → IsPart (bs ++ (record { strobe = strobe; word = word }) ∷ []) self.new }
    {
        let beat = usize::from(self.beats);
        if beat < 4 {
            self.strobes[beat] = strobe;
            self.words[beat] = word;
            self.beats += 1;
        }
    }

    /// The four beats as one.
    fn data(&self) -> WriteData
        ensures { (bs : List Beat) → length bs ≡ 4 → IsPart bs self.now
            → result ≡ data_of_burst bs }
    {
        let upper = u64::from(self.strobes[2]) + 0x1_0000 * u64::from(self.strobes[3]);
        let lower = u64::from(self.strobes[0]) + 0x1_0000 * u64::from(self.strobes[1]);
        WriteData {
            strobe: lower + 0x1_0000_0000 * upper,
            line: Line { words: self.words },
        }
    }
}

impl WriteBursts {
    ghost use Rattle.std.specs.Prelude.{ℕ, Bool, IfOk, Some};
    ghost use Rattle.ace_event.specs.declared.event.Event.TheVariants.{Aw, M, W};
    ghost use Rattle.ace_event.specs.declared.header.Header.{Header};
    ghost use Rattle.ace_event.specs.declared.line.Line.{Line};
    ghost use Rattle.ace_model.specs.Accepted.{IsAccepted};
    ghost use Rattle.ace_model.specs.Shares.{k11_burst};
    ghost use Rattle.ace_model.specs.Trace.{Trace};
    ghost use Rattle.ace_model.specs.Transactions.{issued};
    ghost use Rattle.ace_model.specs.Writes.{next_write, next_write_beat};
    ghost use Rattle.ace_portck.specs.Heard.{IsHeard};
    ghost use Rattle.ace_portck.specs.Targets.{data_in};
    ghost use Rattle.ace_portck.specs.WriteData.{WritesStand};

    /// The writes of a port without events.
    pub fn new(alloc: Global) -> Result<WriteBursts, NoMemory>
        ensures { IfOk result (λ s. (h : Header) (p : ℕ) → WritesStand h [] p s) }
    {
        let Ok(filling) = VecDeque::with_capacity(alloc, IDS) else {
            return Err(NoMemory);
        };
        let Ok(whole) = Vec::with_capacity(alloc, IDS) else {
            return Err(NoMemory);
        };
        Ok(WriteBursts {
            filling,
            part: Part::new(),
            whole,
        })
    }

    /// The write that the port's next W belongs to.
    pub fn next_write(&self) -> Option<Transaction>
        ensures { (h : Header) (past : Trace) (p : ℕ) → WritesStand h past p self.now
            → result ≡ next_write past p }
    {
        self.filling.front().copied()
    }

    /// Which beat of its burst the port's next W is, from 0.
    pub fn beat(&self) -> u8
        ensures { (h : Header) (past : Trace) (p : ℕ) → WritesStand h past p self.now
            → result ≡ next_write_beat past p }
    {
        self.part.beats
    }

    /// Of an M of the transaction under the identifier: the burst of a write with data, where it is
    /// whole and the write has had no M.
    #[inline(always)]
    pub fn burst(&self, chan: Channel, id: u8) -> Option<&WriteData>
        ensures { (h : Header) (past : Trace) (p : ℕ) (line : Line) → WritesStand h past p self.now
            → option_copied result ≡ data_in h past (M p chan id line) }
    {
        match chan {
            Channel::Read => None,
            Channel::Write => sent(&self.whole, id),
        }
    }

    /// K11 but its data, of a W with this strobe, which says whether it is the last beat: it
    /// belongs to a write with data whose burst isn't whole. It is the last beat exactly where it
    /// says so, and WriteLineUnique and memory updates have all strobes.
    #[inline(always)]
    pub fn may_have_beat(&self, strobe: u16, last: bool) -> bool
        ensures { (h : Header) (past : Trace) (p word : ℕ) → WritesStand h past p self.now
            → result ≡ k11_burst h past (W p strobe last word) }
    {
        match self.next_write() {
            Some(write) => fits_burst(self.beat(), strobe, last, &write),
            None => false,
        }
    }

    /// Hears an event of the port that keeps the rules, with `place` events before it. It takes no
    /// memory.
    #[inline(always)]
    pub fn hear(&mut self, event: &Event, place: usize)
        ensures { (h : Header) (past : Trace) (p : ℕ) → IsHeard h past place event.now p
            → WritesStand h past p self.old
            → WritesStand h (event.now ∷ past) p self.new }
    {
        match *event {
            Event::Aw { .. } => {
                if let Some(write) = issued(place, event) {
                    self.begin(write);
                }
            }
            Event::W { strb, word, .. } => self.add(strb, word),
            Event::M { chan, id, .. } => self.remove(chan, id),
            _ => {}
        }
    }

    /// A write is issued: where it has data, its beats are awaited.
    #[inline(always)]
    fn begin(&mut self, write: Transaction)
        ensures { (h : Header) (past : Trace) (p i addr snoop dom bar : ℕ)
            → IsAccepted h (Aw p i addr snoop dom bar ∷ past)
            → issued (length past) (Aw p i addr snoop dom bar) ≡ Some write
            → WritesStand h past p self.old
            → WritesStand h (Aw p i addr snoop dom bar ∷ past) p self.new }
    {
        if let Some(kind) = write_kind(&write) {
            if has_write_data(kind) {
                let _full = self.filling.push_back(write);
            }
        }
    }

    /// One more beat of the oldest burst that isn't whole. The fourth makes it whole.
    #[inline(always)]
    fn add(&mut self, strobe: u16, word: u128)
        ensures { (h : Header) (past : Trace) (p : ℕ) (last : Bool)
            → IsAccepted h (W p strobe last word ∷ past)
            → WritesStand h past p self.old
            → WritesStand h (W p strobe last word ∷ past) p self.new }
    {
        self.part.add(strobe, word);
        if self.part.beats < 4 {
            return;
        }
        let sent = self.part.data();
        self.part = Part::new();
        if let Some(write) = self.filling.pop_front() {
            let _full = self.whole.push(Burst { id: write.id, sent });
        }
    }

    /// The transaction under the identifier has had its M. That of a read takes no write data.
    #[inline(always)]
    fn remove(&mut self, chan: Channel, id: u8)
        ensures { (h : Header) (past : Trace) (p : ℕ) (line : Line)
            → IsAccepted h (M p chan id line ∷ past)
            → WritesStand h past p self.old → WritesStand h (M p chan id line ∷ past) p self.new }
    {
        match chan {
            Channel::Read => {}
            Channel::Write => self.whole.retain(|burst| burst.id != id),
        }
    }
}
