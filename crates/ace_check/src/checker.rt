use crate::heard::Heard;
use crate::shares::Shares;
use ace_event::laws::every_event_fits;
use ace_event::{Event, Header, Line};
use ace_model::{Break, MOST_LINES};
use ace_portck::PortCheck;
use std::alloc::Global;
use thiserror::Error;

/// What the checker says of an event.
#[derive(Clone, Copy, Debug, PartialEq, Eq)]
pub enum Step {
    /// The event breaks no rule, and neither did an earlier one.
    Fine,
    /// The first event that breaks a rule: its number, from 1, and the least rule that it breaks.
    Broken { index: u64, rule: u8 },
}

/// Why an event was not looked at.
#[derive(Clone, Copy, Debug, PartialEq, Eq, Error)]
pub enum CheckErr {
    /// There is no memory for one more line, or for one more snoop under way.
    #[error("out of memory")]
    NoMemory,
    /// The event breaks no rule, and its transaction names one line more than the checker takes:
    /// the 4,097th, where no other limit was asked for.
    #[error("limit lines")]
    TooManyLines,
}

/// A checker of one trace by the forty rules, in three shares: what it keeps of each port, of each
/// line, and of the system as a whole. It keeps no event. After the first event that breaks a rule
/// it gives the same answer for good.
#[derive(Drop)]
pub struct Checker {
    shares: Shares,
    count: u64,
    broken: Option<Break>,
}

impl Checker {
    ghost use Rattle.std.specs.Prelude.{◌≡◌, ◌⊎◌, ◌<◌, ◌-◌, ◌^◌, ◌∷◌, ℕ, [], true, false, None, Some, Ok, Err, IfOk, IfErr, OnErr, length};
    ghost use Rattle.ace_event.specs.Ports.{IsHeader};
    ghost use Rattle.ace_event.specs.declared.header.Header.{Header};
    ghost use Rattle.ace_model.specs.declared.breaks.Break.{Break};
    ghost use Rattle.ace_model.specs.Trace.{Trace};
    ghost use Rattle.ace_model.specs.Accepted.{least_broken};
    ghost use Rattle.std.specs.Prelude.{Option};
    ghost use Rattle.ace_model.specs.Copies.{memory_of};
    ghost use Rattle.ace_portck.specs.Stands.{Stands as Tell};
    ghost use Rattle.ace_check.specs.Run.{Stands, StandsWithin, IsAnswerWithin, IsSound, goes_over_within, past_after, break_after, MayLackMemory};
    ghost use Rattle.ace_check.specs.Shares.{SharesTell};

    /// The checker of the empty trace under this header, whose transactions may name 4,096 lines.
    /// Its only refusal is `NoMemory`.
    pub fn new(alloc: Global, header: Header) -> Result<Checker, CheckErr>
        requires { IsHeader header }
        ensures stands { IfOk result (λ c. Stands c header [] None) }
        ensures refusal { IfErr result (λ e. e ≡ CheckErr.NoMemory) }
    {
        Checker::with_lines(alloc, header, MOST_LINES)
    }

    /// The same, whose transactions may name at most so many lines. By `usize::MAX` there is no
    /// limit but memory, since a trace of fewer than 2^64 - 1 events names fewer lines.
    pub fn with_lines(alloc: Global, header: Header, most: usize) -> Result<Checker, CheckErr>
        requires { IsHeader header }
        ensures stands { IfOk result (λ c. StandsWithin most c header [] None) }
        ensures refusal { IfErr result (λ e. e ≡ CheckErr.NoMemory) }
    {
        let Ok(shares) = Shares::growing(alloc, header, most) else {
            return Err(CheckErr::NoMemory);
        };
        Ok(Checker {
            shares,
            count: 0,
            broken: None,
        })
    }

    /// Looks at the next event of the trace, of fewer than 2^64 - 1. Where it breaks no rule, the
    /// checker stands for the longer trace. Where it breaks one, that break is the answer from then
    /// on. `TooManyLines` comes exactly where the event breaks no rule and names a line too many,
    /// and never from a checker of `usize::MAX` lines; `NoMemory` only where more snoops of a port
    /// are under way than ever before, at the first transaction or MEM of a line, and at the first
    /// exclusive grant of a line. After either the checker stands where it did.
    #[inline(always)]
    pub fn feed(&mut self, event: &Event) -> Result<Step, CheckErr>
        ensures answer { (most : ℕ) (h : Header) (past : Trace)
            → StandsWithin most self.old h past None
            → IfOk result (IsAnswerWithin most h past event.now) }
        ensures stands { (most : ℕ) (h : Header) (past : Trace)
            → StandsWithin most self.old h past None
            → length past < 2 ^ 64 - 2 → IfOk result (λ s.
            StandsWithin most self.new h (past_after past event.now s) (break_after s)) }
        ensures stays { (most : ℕ) (h : Header) (past : Trace)
            → StandsWithin most self.old h past None
            → OnErr result (StandsWithin most self.new h past None) }
        ensures too_many { (most : ℕ) (h : Header) (past : Trace)
            → StandsWithin most self.old h past None → result ≡ Err CheckErr.TooManyLines
            → (least_broken h past event.now ≡ None)
            × (goes_over_within most past event.now ≡ true) }
        ensures unlimited { (h : Header) (past : Trace)
            → StandsWithin (2 ^ 64 - 1) self.old h past None
            → result ≡ Err CheckErr.TooManyLines → ⊥ }
        ensures no_memory { (most : ℕ) (h : Header) (past : Trace)
            → StandsWithin most self.old h past None
            → result ≡ Err CheckErr.NoMemory → MayLackMemory h past event.now }
        ensures broken { (most : ℕ) (h : Header) (past : Trace) (b : Break)
            → StandsWithin most self.old h past (Some b)
            → (result ≡ Ok (Step.Broken b.index b.rule))
            × StandsWithin most self.new h past (Some b) }
        ensures sound { (most : ℕ) (h : Header) (past : Trace)
            → StandsWithin most self.old h past None
            → result ≡ Ok Step.Fine → IsSound h (event.now ∷ past) }
    {
        if let Some(Break { index, rule }) = self.broken {
            return Ok(Step::Broken { index, rule });
        }
        every_event_fits(*event);
        match self.shares.hear_event(event) {
            Heard::Fine => {
                self.count = self.count.wrapping_add(1);
                Ok(Step::Fine)
            }
            Heard::Broken(rule) => {
                let index = self.count.wrapping_add(1);
                self.broken = Some(Break { index, rule });
                Ok(Step::Broken { index, rule })
            }
            Heard::TooManyLines => Err(CheckErr::TooManyLines),
            Heard::NoMemory => Err(CheckErr::NoMemory),
        }
    }

    /// What is kept of the trace: of each port, of each line and of the system. After an event that
    /// breaks a rule it is that before the event.
    pub fn shares(&self) -> &Shares
        ensures { (most : ℕ) (h : Header) (past : Trace) (b : Option Break)
            → StandsWithin most self.now h past b → SharesTell result.now h past }
    {
        &self.shares
    }

    /// What is kept of each port.
    pub fn ports(&self) -> &PortCheck
        ensures { (most : ℕ) (h : Header) (past : Trace) (b : Option Break)
            → StandsWithin most self.now h past b
            → Tell result.now (record { header = h; past = past }) }
    {
        &self.shares.ports
    }

    /// Memory of the line.
    pub fn memory(&self, line: u32) -> Line
        ensures { (most : ℕ) (h : Header) (past : Trace) (b : Option Break)
            → StandsWithin most self.now h past b
            → result ≡ memory_of past line }
    {
        self.shares.lines.memory(line)
    }

    /// How many events were answered `Fine`.
    pub fn count(&self) -> u64
        ensures { (most : ℕ) (h : Header) (past : Trace) (b : Option Break)
            → StandsWithin most self.now h past b
            → result ≡ length past }
    {
        self.count
    }
}
