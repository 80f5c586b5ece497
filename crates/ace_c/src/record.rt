// An event as C writes it.
ghost use Rattle.std.specs.Prelude.{◌≡◌, option_map};
ghost use Rattle.ace_c.specs.Names.{with_address};
ghost use Rattle.ace_c.specs.Records.{flag_of, state_of, channel_of, outcome_of, word_at, line_of, event_as};

use ace_codes::LineState;
use ace_event::{Channel, Event, Line, Outcome};

/// An event of a trace. Its kind says which fields are looked at; the others may have any value.
#[repr(C)]
#[derive(Clone, Copy)]
pub struct AceEvent {
    pub kind: u8,
    pub port: u8,
    pub id: u8,
    pub snoop: u8,
    pub domain: u8,
    pub bar: u8,
    pub resp: u8,
    pub state: u8,
    /// The lock of AR, the last of R, W and CD, the exclusive of L and D; 1 for a write in G and M.
    pub flag: u8,
    /// The word of an L, the result of an OP.
    pub index: u8,
    /// The number of an OP, the strobe of a W.
    pub number: u16,
    pub addr: u64,
    /// The strobe of a D.
    pub strobe: u64,
    /// The bytes of the line or, in the first sixteen, of the beat, in order of address.
    pub data: [[u8; 16]; 4],
}

/// The bit with this code.
fn flag_of(code: u8) -> Option<bool>
    ensures { result ≡ flag_of code }
{
    match code {
        0 => Some(false),
        1 => Some(true),
        _ => None,
    }
}

/// The state of a line with this code.
fn state_of(code: u8) -> Option<LineState>
    ensures { result ≡ state_of code }
{
    match code {
        0 => Some(LineState::I),
        1 => Some(LineState::UC),
        2 => Some(LineState::UD),
        3 => Some(LineState::SC),
        4 => Some(LineState::SD),
        _ => None,
    }
}

/// The channel with this code.
fn channel_of(code: u8) -> Option<Channel>
    ensures { result ≡ channel_of code }
{
    match code {
        0 => Some(Channel::Read),
        1 => Some(Channel::Write),
        _ => None,
    }
}

/// The outcome with this code.
fn outcome_of(code: u8) -> Option<Outcome>
    ensures { result ≡ outcome_of code }
{
    match code {
        0 => Some(Outcome::Ok),
        1 => Some(Outcome::Skip),
        2 => Some(Outcome::Fail),
        _ => None,
    }
}

/// The word of the first sixteen bytes, in order of address.
fn word_of(given: &AceEvent) -> u128
    ensures { result ≡ word_at given.now 0 }
{
    u128::from_be_bytes(given.data[0])
}

/// The line of all the bytes.
fn line_of(given: &AceEvent) -> Line
    ensures { result ≡ line_of given.now }
{
    Line {
        words: [
            u128::from_be_bytes(given.data[0]),
            u128::from_be_bytes(given.data[1]),
            u128::from_be_bytes(given.data[2]),
            u128::from_be_bytes(given.data[3]),
        ],
    }
}

/// The event of this kind with the fields of the record, but for its address, in place of which 0
/// stands. None where its kind or a code is none.
#[inline(always)]
pub(crate) fn event_as(kind: u8, given: &AceEvent) -> Option<Event>
    ensures { option_map (λ e. with_address e given.now.addr) result ≡ event_as kind given.now }
{
    let port = given.port;
    match kind {
        0 => Some(Event::Ar {
            port,
            id: given.id,
            addr: 0,
            snoop: given.snoop,
            dom: given.domain,
            bar: given.bar,
            lock: flag_of(given.flag)?,
        }),
        1 => Some(Event::R {
            port,
            id: given.id,
            resp: given.resp,
            last: flag_of(given.flag)?,
            word: word_of(given),
        }),
        2 => Some(Event::Rk {
            port,
            st: state_of(given.state)?,
        }),
        3 => Some(Event::Aw {
            port,
            id: given.id,
            addr: 0,
            snoop: given.snoop,
            dom: given.domain,
            bar: given.bar,
        }),
        4 => Some(Event::W {
            port,
            strb: given.number,
            last: flag_of(given.flag)?,
            word: word_of(given),
        }),
        5 => Some(Event::B {
            port,
            id: given.id,
            resp: given.resp,
        }),
        6 => Some(Event::Wk {
            port,
            st: state_of(given.state)?,
        }),
        7 => Some(Event::Ac {
            port,
            addr: 0,
            snoop: given.snoop,
        }),
        8 => Some(Event::Cr {
            port,
            resp: given.resp,
            st: state_of(given.state)?,
        }),
        9 => Some(Event::Cd {
            port,
            last: flag_of(given.flag)?,
            word: word_of(given),
        }),
        10 => Some(Event::G {
            port,
            chan: channel_of(given.flag)?,
            id: given.id,
        }),
        11 => Some(Event::M {
            port,
            chan: channel_of(given.flag)?,
            id: given.id,
            line: line_of(given),
        }),
        12 => Some(Event::S {
            port,
            addr: 0,
            st: state_of(given.state)?,
        }),
        13 => Some(Event::L {
            port,
            addr: 0,
            w: given.index,
            x: flag_of(given.flag)?,
            word: word_of(given),
        }),
        14 => Some(Event::D {
            port,
            addr: 0,
            strobe: given.strobe,
            x: flag_of(given.flag)?,
            line: line_of(given),
        }),
        15 => Some(Event::Op {
            port,
            k: given.number,
            res: outcome_of(given.index)?,
        }),
        16 => Some(Event::Mem {
            addr: 0,
            line: line_of(given),
        }),
        _ => None,
    }
}
