// The operations of a script, of which each is made of two words of a generator.
ghost use Rattle.std.specs.Prelude.{◌≡◌, ◌≤◌, ◌*◌, ◌^◌};
ghost use Rattle.ace_script.specs.Generated.{repeated, repeated_line};
ghost use Rattle.ace_cover_script.specs.Covering.{access_op, ace_op, drawn_operation, fetch_kind, message_word, shared_op, yielding_op};
ghost use Rattle.ace_cover_script.specs.Shapes.{IsShape};

use crate::places::{Places, places_of};
use crate::shape::Shape;
use ace_codes::ArKind;
use ace_event::Line;
use ace_model::{Op, PlanOp};

/// The four bytes of y, four times.
fn repeated(y: u32) -> u128
    ensures { result ≡ repeated y }
{
    u128::from(y) * 0x1_0000_0001_0000_0001_0000_0001
}

/// That word, four times.
fn repeated_line(y: u32) -> Line
    ensures { result ≡ repeated_line y }
{
    Line {
        words: [repeated(y), repeated(y), repeated(y), repeated(y)],
    }
}

/// The word of a message of one of four operations.
fn message_word(y: u32) -> u32
    ensures value { result ≡ message_word y }
    ensures bound { result ≤ 0x3000 }
{
    0x1000 * (y % 4)
}

/// The strobe of the word of this number.
fn word_strobe(word: u8) -> u64
    requires { word ≤ 3 }
    ensures { result ≡ 0xffff * 2 ^ (16 * word) }
{
    0xffff << (16 * word)
}

/// A load or a store.
fn access_op(pick: u32, places: Places, y: u32) -> Op
    ensures { result ≡ access_op pick places y }
{
    let addr = places.snooped;
    let w = places.word;
    if pick <= 3 {
        Op::Ld { addr, w }
    } else if pick <= 6 {
        Op::Ldx { addr, w }
    } else if pick <= 10 {
        let word = repeated(y);
        Op::St { addr, w, word }
    } else if pick <= 13 {
        let word = repeated(y);
        Op::Stx { addr, w, word }
    } else {
        let line = repeated_line(y);
        Op::Fill { addr, line }
    }
}

/// How a line is read ahead.
fn fetch_kind(pick: u32) -> ArKind
    ensures { result ≡ fetch_kind pick }
{
    if pick <= 2 {
        ArKind::ReadShared
    } else if pick <= 6 {
        ArKind::ReadClean
    } else if pick <= 10 {
        ArKind::ReadNotSharedDirty
    } else {
        ArKind::ReadUnique
    }
}

/// A cache gives a line up or writes it to memory; DVM messages.
fn yielding_op(pick: u32, places: Places, y: u32) -> Op
    ensures { result ≡ yielding_op pick places y }
{
    let addr = places.snooped;
    if pick <= 2 {
        Op::Wb { addr }
    } else if pick <= 5 {
        Op::Wc { addr }
    } else if pick <= 7 {
        Op::Ev { addr }
    } else if pick <= 11 {
        Op::We { addr }
    } else if pick <= 13 {
        let word = message_word(y);
        Op::Dvm { word }
    } else if pick == 14 {
        let word = message_word(y) + 1;
        Op::Dvm2 { word, second: y }
    } else {
        Op::Sync { word: 0xc000 }
    }
}

/// What any port may do.
fn shared_op(pick: u32, places: Places, y: u32) -> Op
    requires { places.word ≤ 3 }
    ensures { result ≡ shared_op pick places y }
{
    let addr = places.snooped;
    let line = repeated_line(y);
    if pick <= 4 {
        Op::Ro { addr }
    } else if pick <= 7 {
        Op::Cs { addr }
    } else if pick == 8 {
        Op::Ci { addr }
    } else if pick == 9 {
        Op::Mi { addr }
    } else if pick == 10 {
        let strobe = word_strobe(places.word);
        Op::Wu { addr, strobe, line }
    } else if pick == 11 {
        Op::Wlu { addr, line }
    } else if pick == 12 {
        let addr = places.unsnooped;
        Op::Rn { addr }
    } else if pick == 13 {
        let addr = places.unsnooped;
        let strobe = u64::MAX;
        Op::Wn { addr, strobe, line }
    } else if pick == 14 {
        Op::Mb
    } else {
        Op::Sb
    }
}

/// An operation of an ACE port.
fn ace_op(sort: u32, pick: u32, places: Places, y: u32) -> Op
    requires { places.word ≤ 3 }
    ensures { result ≡ ace_op sort pick places y }
{
    if sort == 0 {
        access_op(pick, places, y)
    } else if sort == 1 {
        let kind = fetch_kind(pick);
        let addr = places.snooped;
        Op::Pf { addr, kind }
    } else if sort == 2 {
        yielding_op(pick, places, y)
    } else {
        shared_op(pick, places, y)
    }
}

/// The operation of two words of the generator.
#[tactic(auto, unfolding(crate::specs::Covering::drawn_operation))]
pub(crate) fn drawn_operation(shape: Shape, x: u32, y: u32) -> PlanOp
    requires { IsShape shape }
    ensures { result ≡ drawn_operation shape x y }
{
    let port = (x % u32::from(shape.aces + shape.lites)) as u8;
    let pick = x / 0x1_0000 % 16;
    let places = places_of(shape, x);
    let op = if port < shape.aces {
        ace_op(x / 0x10_0000 % 4, pick, places, y)
    } else {
        shared_op(pick, places, y)
    };
    PlanOp { port, op }
}
