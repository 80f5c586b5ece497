//! How the next operation of a port ends: by its OP, or by the load or store that it lacks and its
//! OP.

ghost use Rattle.std.specs.Prelude.{◌≡◌, ◌<◌, ◌∷◌, ℕ, [], true, false};
ghost use Rattle.ace_model.specs.Copies.{copy_of, word_of};
ghost use Rattle.ace_model.specs.Plans.{Plan, has_right_fields, line_named};
ghost use Rattle.ace_model.specs.OrderRules.{retired};
ghost use Rattle.ace_model.specs.Trace.{Trace, is_some_and};
ghost use Rattle.ace_model.specs.Transactions.{has_outstanding_on};
ghost use Rattle.ace_runs.specs.Acts.{word_line, word_strobe};
ghost use Rattle.ace_runs.specs.Closing.{access_of, closing_of, gives_access, retirement, state_named};
ghost use Rattle.ace_runs.specs.Requests.{is_waiting};
ghost use Rattle.ace_tables.specs.States.{is_invalid};
ghost use Rattle.ace_model.specs.States.{state_of};
ghost use Rattle.ace_event.specs.declared.event.Event.TheVariants.{L};
ghost use Rattle.ace_master_state.specs.Closing.{events_of};
ghost use Rattle.ace_master_state.specs.Kept.{KeptStands};
ghost use Rattle.ace_master_state.specs.Retiring.{IsToldOf};

use crate::Kept;
use ace_codes::LineState;
use ace_event::{Event, Line, Outcome};
use ace_model::Op;
use ace_tables::{is_invalid, is_unique};

/// What ends an operation.
#[derive(Clone, Copy, Debug, PartialEq, Eq)]
pub enum Closing {
    /// Nothing, as long as nothing changes.
    Nothing,
    /// Its OP.
    Retires(Event),
    /// Its load or store, and its OP.
    Accesses(Event, Event),
}

/// A word of a line, which has four.
fn word_of(line: &Line, w: u8) -> u128
    ensures { w < 4 → result ≡ word_of line.now w }
{
    line.words[usize::from(w % 4)]
}

/// The sixteen strobes of word w of a line.
fn word_strobe(w: u8) -> u64
    ensures { w < 4 → result ≡ word_strobe w }
{
    match w {
        0 => 0xffff,
        1 => 0xffff_0000,
        2 => 0xffff_0000_0000,
        _ => 0xffff_0000_0000_0000,
    }
}

/// The line with this word and zeros elsewhere.
fn word_line(w: u8, word: u128) -> Line
    ensures { w < 4 → result ≡ word_line w word }
{
    let words = match w {
        0 => [word, 0, 0, 0],
        1 => [0, word, 0, 0],
        2 => [0, 0, word, 0],
        _ => [0, 0, 0, word],
    };
    Line { words }
}

/// A line in this state can be loaded from, stored to.
pub fn gives_access(op: Op, st: LineState) -> bool
    ensures { result ≡ gives_access op st }
{
    match op {
        Op::Ld { .. } | Op::Ldx { .. } => !is_invalid(st),
        _ => is_unique(st),
    }
}

impl Kept {
    /// The port's state of the line that the operation names; I where it names none.
    pub fn state_named(&self, op: Op) -> LineState
        ensures { (plan : Plan) (past : Trace) (p : ℕ) → KeptStands plan past p self.now
            → result ≡ state_named plan.header past p op }
    {
        match op.line() {
            Some(line) => self.lines.state(line),
            None => LineState::I,
        }
    }

    /// A load of a word of a line that the port holds.
    fn load(&self, addr: u32, w: u8, x: bool) -> Event
        ensures { (plan : Plan) (past : Trace) (p : ℕ) → KeptStands plan past p self.now → w < 4
            → is_invalid (state_of plan.header past p addr) ≡ false
            → result ≡ L p addr w x (word_of (copy_of past p addr) w) }
    {
        Event::L {
            port: self.port.port(),
            addr,
            w,
            x,
            word: word_of(&self.lines.copy(addr), w),
        }
    }

    /// The load or store by which the port does the operation, of a line that gives access to it.
    pub fn access_of(&self, op: Op) -> Option<Event>
        ensures { (plan : Plan) (past : Trace) (p : ℕ) → KeptStands plan past p self.now
            → has_right_fields op ≡ true
            → gives_access op (state_named plan.header past p op) ≡ true
            → result ≡ access_of past p op }
    {
        let port = self.port.port();
        let (addr, strobe, x, line) = match op {
            Op::Ld { addr, w } => return Some(self.load(addr, w, false)),
            Op::Ldx { addr, w } => return Some(self.load(addr, w, true)),
            Op::St { addr, w, word } => (addr, word_strobe(w), false, word_line(w, word)),
            Op::Stx { addr, w, word } => (addr, word_strobe(w), true, word_line(w, word)),
            Op::Fill { addr, line } => (addr, u64::MAX, false, line),
            _ => return None,
        };
        Some(Event::D {
            port,
            addr,
            strobe,
            x,
            line,
        })
    }

    /// How many operations of the port retired.
    pub fn retired(&self) -> u16
        ensures { (plan : Plan) (past : Trace) (p : ℕ) → KeptStands plan past p self.now
            → result ≡ retired past p }
    {
        self.port.retired().min(0xffff) as u16
    }

    /// The OP of the port's next operation.
    pub fn retirement(&self, res: Outcome) -> Event
        ensures { (plan : Plan) (past : Trace) (p : ℕ) → KeptStands plan past p self.now
            → result ∷ [] ≡ retirement past p res }
    {
        Event::Op {
            port: self.port.port(),
            k: self.retired(),
            res,
        }
    }

    /// What ends the port's next operation. `refused` says whether the interconnect refused an
    /// exclusive store of it.
    pub fn closing_of(&self, op: Op, refused: bool) -> Closing
        ensures { (plan : Plan) (past : Trace) (p : ℕ) → KeptStands plan past p self.now
            → has_right_fields op ≡ true → IsToldOf past p op refused
            → events_of result ≡ closing_of plan.header past p op }
    {
        if self.may_retire(op, Outcome::Ok, refused) {
            return Closing::Retires(self.retirement(Outcome::Ok));
        }
        if self.may_retire(op, Outcome::Skip, refused) {
            return Closing::Retires(self.retirement(Outcome::Skip));
        }
        if self.may_retire(op, Outcome::Fail, refused) {
            return Closing::Retires(self.retirement(Outcome::Fail));
        }
        if !gives_access(op, self.state_named(op)) {
            return Closing::Nothing;
        }
        match self.access_of(op) {
            Some(access) => Closing::Accesses(access, self.retirement(Outcome::Ok)),
            None => Closing::Nothing,
        }
    }

    /// A transaction of the port on the line of the operation is outstanding.
    fn is_line_busy(&self, op: Op) -> bool
        ensures { (plan : Plan) (past : Trace) (p : ℕ) → KeptStands plan past p self.now
            → result ≡ is_some_and (line_named op) (has_outstanding_on plan.header past p) }
    {
        match op.line() {
            Some(line) => !self.port.is_line_free(line),
            None => false,
        }
    }

    /// The operation has to wait.
    pub fn is_waiting(&self, op: Op) -> bool
        ensures { (plan : Plan) (past : Trace) (p : ℕ) → KeptStands plan past p self.now
            → result ≡ is_waiting plan.header past p op }
    {
        self.segment.acts() != 0 || self.is_line_busy(op) || self.awaits_update()
    }
}
