// The numbers and the data that clauses expect.
ghost use Rattle.std.specs.Prelude.{◌≡◌, Some, None, if◌then◌else◌, is_some, option_map};
ghost use Rattle.ace_event.specs.declared.event.Channel.TheVariants.{Read};
ghost use Rattle.ace_event.specs.declared.line.Line.{Line as Held};
ghost use Rattle.ace_expected.specs.declared.wanted.Expectation.TheVariants.{Number, Data};
ghost use Rattle.ace_lineck.specs.Stands.{Stands as LinesTell};
ghost use Rattle.ace_model.specs.Copies.{word_of};
ghost use Rattle.ace_model.specs.Grants.{granted};
ghost use Rattle.ace_model.specs.Transactions.{outstanding, read_kind, snoop_of};
ghost use Rattle.ace_model.specs.WriteRules.{data_of};
ghost use Rattle.ace_model.specs.Writes.{next_write};
ghost use Rattle.ace_portck.specs.Stands.{Stands as PortsTell};
ghost use Rattle.ace_portck.specs.Targets.{Recording, data_of_write, progress_of};
ghost use Rattle.ace_expected.specs.Expected.{copied_word, due_data, flag, last_beat, memory_data, of_cd, of_reply, of_w, read_last, read_last_of, reply_word, reply_word_of, sent_word, snoop_code, snoop_code_of};

use crate::wanted::{Expectation, Width};
use ace_clauses::Letter;
use ace_codes::ac_code;
use ace_event::{Channel, Line};
use ace_lineck::{LineCheck, snoop_of};
use ace_model::Transaction;
use ace_model::kinds::{beats_of, read_kind};
use ace_portck::{PortCheck, Progress};

/// A number that is expected, and the number that there is.
pub(crate) fn number(width: Width, expected: u128, got: u128) -> Option<Expectation>
    ensures { result ≡ Some (Number width expected got) }
{
    Some(Expectation::Number {
        width,
        expected,
        got,
    })
}

/// A flag as a number.
fn flag(set: bool) -> u128
    ensures { result ≡ flag set }
{
    if set { 1 } else { 0 }
}

/// Whether a beat is the last.
pub(crate) fn last_beat(expected: bool, got: bool) -> Option<Expectation>
    ensures { result ≡ last_beat expected got }
{
    number(Width::Digit, flag(expected), flag(got))
}

/// Word k of the line, from 0; 0 where k is above 3.
pub fn word_of(line: &Line, k: u8) -> u128
    ensures { result ≡ word_of line.now k }
{
    match line.words.get(usize::from(k)) {
        None => 0,
        Some(word) => *word,
    }
}

/// The word of the port's copy of the line.
pub(crate) fn copied_word(
    lines: &LineCheck,
    port: u8,
    line: u32,
    k: u8,
    word: u128,
) -> Option<Expectation>
    ensures { (r : Recording) → LinesTell lines.now r
        → result ≡ copied_word r.past port line k word }
{
    let copy = lines.copy(lines.place(Some(line)), port);
    number(Width::Word, word_of(&copy, k), word)
}

/// The word that the port's next W sends, if that is one of a memory update.
fn sent_word(ports: &PortCheck, lines: &LineCheck, port: u8, word: u128) -> Option<Expectation>
    ensures { (r : Recording) → PortsTell ports.now r → LinesTell lines.now r
        → result ≡ sent_word r.past port (next_write r.past port) word }
{
    match ports.next_write(port) {
        None => None,
        Some(x) => copied_word(lines, port, x.addr, ports.next_write_beat(port), word),
    }
}

/// What the clause of K11 expects of a W.
pub(crate) fn of_w(
    ports: &PortCheck,
    lines: &LineCheck,
    port: u8,
    strb: u16,
    last: bool,
    word: u128,
    letter: Letter,
) -> Option<Expectation>
    ensures { (r : Recording) → PortsTell ports.now r → LinesTell lines.now r
        → result ≡ of_w r.past port strb last word letter }
{
    match letter {
        Letter::B => last_beat(ports.next_write_beat(port) == 3, last),
        Letter::C => number(Width::Strobe, 0xffff, u128::from(strb)),
        Letter::D => sent_word(ports, lines, port, word),
        _ => None,
    }
}

/// What the clause of K17 expects of a CD.
pub(crate) fn of_cd(
    ports: &PortCheck,
    port: u8,
    last: bool,
    word: u128,
    letter: Letter,
) -> Option<Expectation>
    ensures { (r : Recording) → PortsTell ports.now r
        → result ≡ of_cd r.past port last word letter }
{
    match letter {
        Letter::B => last_beat(ports.next_sent_beat(port) == 3, last),
        Letter::C => Some(Expectation::Sent { got: word }),
        _ => None,
    }
}

/// The code of the snoop that the transaction causes.
fn snoop_code_of(x: &Transaction, snoop: u8) -> Option<Expectation>
    ensures { result ≡ snoop_code_of (snoop_of x.now) snoop }
{
    match snoop_of(x) {
        None => None,
        Some(kind) => number(Width::Digit, u128::from(ac_code(kind)), u128::from(snoop)),
    }
}

/// The same, of the granted transaction of the line.
pub(crate) fn snoop_code(lines: &LineCheck, line: u32, snoop: u8) -> Option<Expectation>
    ensures { (r : Recording) → LinesTell lines.now r
        → result ≡ snoop_code (granted r.header r.past line) snoop }
{
    match lines.granted_transaction(lines.place(Some(line))) {
        None => None,
        Some(x) => snoop_code_of(&x, snoop),
    }
}

/// Whether the next transfer of the read is its last.
fn read_last_of(x: &Progress, last: bool) -> Option<Expectation>
    ensures { result ≡ read_last_of x.now (read_kind x.now.transaction) last }
{
    match read_kind(&x.transaction) {
        None => None,
        Some(kind) => {
            let is_last = u16::from(x.transfers) + 1 == u16::from(beats_of(kind));
            last_beat(is_last, last)
        }
    }
}

/// The same, of the outstanding read under the identifier.
pub(crate) fn read_last(ports: &PortCheck, port: u8, id: u8, last: bool) -> Option<Expectation>
    ensures { (r : Recording) → PortsTell ports.now r
        → result ≡ read_last (option_map (progress_of r.header r.past)
        (outstanding r.header r.past port Read id)) last }
{
    match ports.outstanding(port, Channel::Read, id) {
        None => None,
        Some(x) => read_last_of(x, last),
    }
}

/// The word of the reply to the granted read of the line of the read.
fn reply_word_of(lines: &LineCheck, x: &Progress, word: u128) -> Option<Expectation>
    ensures { (r : Recording) → LinesTell lines.now r
        → result ≡ reply_word_of r.past x.now
        (granted r.header r.past x.now.transaction.addr) word }
{
    let place = lines.place(Some(x.transaction.addr));
    match lines.granted_transaction(place) {
        None => None,
        Some(y) => match y.chan {
            Channel::Read => number(Width::Word, word_of(&lines.reply(place), x.transfers), word),
            Channel::Write => None,
        },
    }
}

/// The same, of the outstanding read under the identifier.
fn reply_word(
    ports: &PortCheck,
    lines: &LineCheck,
    port: u8,
    id: u8,
    word: u128,
) -> Option<Expectation>
    ensures { (r : Recording) → PortsTell ports.now r → LinesTell lines.now r
        → result ≡ reply_word r.header r.past (option_map (progress_of r.header r.past)
        (outstanding r.header r.past port Read id)) word }
{
    match ports.outstanding(port, Channel::Read, id) {
        None => None,
        Some(x) => reply_word_of(lines, x, word),
    }
}

/// What the clause of K20 expects of an R.
pub(crate) fn of_reply(
    ports: &PortCheck,
    lines: &LineCheck,
    port: u8,
    id: u8,
    word: u128,
    letter: Letter,
) -> Option<Expectation>
    ensures { (r : Recording) → PortsTell ports.now r → LinesTell lines.now r
        → result ≡ of_reply r.header r.past (option_map (progress_of r.header r.past)
        (outstanding r.header r.past port Read id)) word letter }
{
    match letter {
        Letter::A => number(Width::Word, 0, word),
        Letter::B => reply_word(ports, lines, port, id, word),
        _ => None,
    }
}

/// What the outstanding write of this name is due to write to memory, where its burst is whole.
fn written(
    ports: &PortCheck,
    lines: &LineCheck,
    x: &Transaction,
    chan: Channel,
    id: u8,
    port: u8,
) -> Option<Line>
    ensures { (r : Recording) → PortsTell ports.now r → LinesTell lines.now r
        → outstanding r.header r.past port chan id ≡ Some x.now
        → result ≡ (if is_some (data_of_write r.past x.now)
        then data_of r.header r.past x.now else None) }
{
    let place = lines.place(Some(x.addr));
    match ports.burst(port, chan, id) {
        None => None,
        Some(burst) => Some(lines.written(place, x, burst)),
    }
}

/// What the outstanding transaction of this name is due to write to memory, where it is known.
fn due_data(
    ports: &PortCheck,
    lines: &LineCheck,
    x: &Transaction,
    chan: Channel,
    id: u8,
    port: u8,
) -> Option<Line>
    ensures { (r : Recording) → PortsTell ports.now r → LinesTell lines.now r
        → outstanding r.header r.past port chan id ≡ Some x.now
        → result ≡ due_data r.header r.past x.now }
{
    match x.chan {
        Channel::Read => lines.passed_data(lines.place(Some(x.addr))),
        Channel::Write => written(ports, lines, x, chan, id, port),
    }
}

/// Data that are expected, if they are known, and those that there are.
fn data(due: Option<Line>, got: &Line) -> Option<Expectation>
    ensures { result ≡ option_map (λ (line : Held). Data line got.now) due }
{
    match due {
        None => None,
        Some(expected) => Some(Expectation::Data {
            expected,
            got: *got,
        }),
    }
}

/// What is expected of an M.
pub(crate) fn memory_data(
    ports: &PortCheck,
    lines: &LineCheck,
    port: u8,
    chan: Channel,
    id: u8,
    got: &Line,
) -> Option<Expectation>
    ensures { (r : Recording) → PortsTell ports.now r → LinesTell lines.now r
        → result ≡ memory_data r.header r.past (outstanding r.header r.past port chan id) got.now }
{
    match ports.outstanding(port, chan, id) {
        None => None,
        Some(x) => data(due_data(ports, lines, &x.transaction, chan, id, port), got),
    }
}
