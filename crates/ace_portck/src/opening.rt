//! The opening memory of a trace.

use ace_event::{Event, Header};
use ace_model::MOST_LINES;

/// How far a trace has opened memory.
#[derive(Clone, Copy, Debug, PartialEq, Eq)]
pub enum OpeningMemory {
    /// No event came.
    Empty,
    /// MEM events alone came, the last with this address.
    Opened(u32),
    /// An event of another kind came.
    Closed,
}

impl OpeningMemory {
    ghost use Rattle.std.specs.Prelude.{◌≡◌, ◌∷◌, [], length};
    ghost use Rattle.ace_event.specs.declared.header.Header.{Header};
    ghost use Rattle.ace_model.specs.Accepted.{IsAccepted};
    ghost use Rattle.ace_model.specs.AddressRules.{opens_memory};
    ghost use Rattle.ace_model.specs.Trace.{Trace};
    ghost use Rattle.ace_portck.specs.Opening.{OpeningStands, opens_above};

    /// No event came.
    pub fn new() -> OpeningMemory
        ensures { OpeningStands [] result }
    {
        OpeningMemory::Empty
    }

    /// A MEM of the line may come next.
    fn opens(&self, addr: u32) -> bool
        ensures { result ≡ opens_above self.now addr }
    {
        match *self {
            OpeningMemory::Empty => true,
            OpeningMemory::Opened(last) => last < addr,
            OpeningMemory::Closed => false,
        }
    }

    /// Of K3, all but that the line is at a multiple of 64: a MEM of this address may come next. It
    /// stands in a trace of version 2, after none but MEM events, with a greater address than each
    /// of them, and it is at most the 4,096th. `place` is the number of events before it.
    #[inline(always)]
    pub fn may_open_at(&self, header: &Header, addr: u32, place: usize) -> bool
        ensures { (past : Trace) → OpeningStands past self.now → place ≡ length past
            → result ≡ opens_memory header.now past addr }
    {
        header.version == 2 && self.opens(addr) && place < MOST_LINES
    }

    /// Hears an event that keeps the rules.
    #[inline(always)]
    pub fn hear(&mut self, event: &Event)
        ensures { (h : Header) (past : Trace) → IsAccepted h (event.now ∷ past)
            → OpeningStands past self.old
            → OpeningStands (event.now ∷ past) self.new }
    {
        *self = match *event {
            Event::Mem { addr, .. } => OpeningMemory::Opened(addr),
            _ => OpeningMemory::Closed,
        };
    }
}
