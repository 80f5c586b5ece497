// What the clause that is false expects of an event.
ghost use Rattle.std.specs.Prelude.{◌≡◌, Some, option_map};
ghost use Rattle.ace_event.specs.declared.event.Channel.TheVariants.{Read};
ghost use Rattle.ace_model.specs.States.{state_of};
ghost use Rattle.ace_model.specs.Transactions.{outstanding};
ghost use Rattle.ace_expected.specs.declared.wanted.Expectation.TheVariants.{State};
ghost use Rattle.ace_expected.specs.declared.wanted.StateTable.TheVariants.{Silent, Store};
ghost use Rattle.ace_lineck.specs.Stands.{Stands as LinesTell};
ghost use Rattle.ace_portck.specs.Stands.{Stands as PortsTell};
ghost use Rattle.ace_portck.specs.Targets.{Recording, progress_of};
ghost use Rattle.ace_sysck.specs.Stands.{Stands as SystemTells};
ghost use Rattle.ace_expected.specs.Expected.{expectation, is_a, is_b, is_c, of_l, of_r, only};

use crate::states::{answer, read_end, start, state_of, write_end};
use crate::values::{
    copied_word, memory_data, number, of_cd, of_reply, of_w, read_last, snoop_code,
};
use crate::wanted::{Expectation, StateTable, Width};
use ace_clauses::Letter;
use ace_codes::LineState;
use ace_event::Event;
use ace_lineck::LineCheck;
use ace_portck::{PortCheck, issued};
use ace_sysck::SysCheck;

fn is_a(letter: Letter) -> bool
    ensures { result ≡ is_a letter }
{
    matches!(letter, Letter::A)
}

fn is_b(letter: Letter) -> bool
    ensures { result ≡ is_b letter }
{
    matches!(letter, Letter::B)
}

fn is_c(letter: Letter) -> bool
    ensures { result ≡ is_c letter }
{
    matches!(letter, Letter::C)
}

/// What there is, where it is asked for.
fn only(asked: bool, x: Option<Expectation>) -> Option<Expectation>
    ensures { result ≡ only asked x }
{
    if asked { x } else { None }
}

/// Of an R.
fn of_r(
    ports: &PortCheck,
    lines: &LineCheck,
    port: u8,
    id: u8,
    last: bool,
    word: u128,
    rule: u8,
    letter: Letter,
) -> Option<Expectation>
    ensures { (r : Recording) → PortsTell ports.now r → LinesTell lines.now r
        → result ≡ of_r r.header r.past (option_map (progress_of r.header r.past)
        (outstanding r.header r.past port Read id)) last word rule letter }
{
    if rule == 18 {
        return only(is_c(letter), read_last(ports, port, id, last));
    }
    only(rule == 20, of_reply(ports, lines, port, id, word, letter))
}

/// Of an S: a state to which the port may move the line by itself.
fn silent(lines: &LineCheck, port: u8, addr: u32, got: LineState) -> Option<Expectation>
    ensures { (r : Recording) → LinesTell lines.now r
        → result ≡ Some (State (Silent (state_of r.header r.past port addr)) got) }
{
    let held = state_of(lines, port, addr);
    Some(Expectation::State {
        table: StateTable::Silent { held },
        got,
    })
}

/// Of a D: a state in which the port may store.
fn store(lines: &LineCheck, port: u8, addr: u32) -> Option<Expectation>
    ensures { (r : Recording) → LinesTell lines.now r
        → result ≡ Some (State Store (state_of r.header r.past port addr)) }
{
    let got = state_of(lines, port, addr);
    Some(Expectation::State {
        table: StateTable::Store,
        got,
    })
}

/// Of an L: a state in which the port may load, or its word.
fn of_l(lines: &LineCheck, port: u8, addr: u32, w: u8, word: u128, rule: u8) -> Option<Expectation>
    ensures { (r : Recording) → LinesTell lines.now r
        → result ≡ of_l r.header r.past port addr w word rule }
{
    if rule == 30 {
        let got = state_of(lines, port, addr);
        return Some(Expectation::State {
            table: StateTable::Load,
            got,
        });
    }
    only(rule == 31, copied_word(lines, port, addr, w, word))
}

/// What the clause of the rule expects of the event, and what it got; nothing where it expects no
/// value.
pub fn expectation(
    ports: &PortCheck,
    lines: &LineCheck,
    system: &SysCheck,
    event: &Event,
    rule: u8,
    letter: Letter,
) -> Option<Expectation>
    ensures { (r : Recording) → PortsTell ports.now r → LinesTell lines.now r
        → SystemTells system.now r
        → result ≡ expectation r.header r.past event.now rule letter }
{
    match *event {
        Event::Ar { .. } | Event::Aw { .. } => only(rule == 6, start(lines, &issued(0, event))),
        Event::R {
            port,
            id,
            last,
            word,
            ..
        } => of_r(ports, lines, port, id, last, word, rule, letter),
        Event::Rk { port, st } => only(
            rule == 23 && !is_b(letter),
            read_end(ports, lines, system, port, st),
        ),
        Event::Wk { port, st } => only(rule == 28, write_end(ports, lines, port, st)),
        Event::W {
            port,
            strb,
            last,
            word,
        } => only(
            rule == 11,
            of_w(ports, lines, port, strb, last, word, letter),
        ),
        Event::B { resp, .. } => only(
            rule == 26 && is_b(letter),
            number(Width::Digit, 0, u128::from(resp)),
        ),
        Event::Ac {
            port: _,
            addr,
            snoop,
        } => only(rule == 13 && is_c(letter), snoop_code(lines, addr, snoop)),
        Event::Cr { port, resp, st } => only(
            rule == 15 || rule == 16,
            answer(ports, lines, port, rule == 16, resp, st),
        ),
        Event::Cd { port, last, word } => {
            only(rule == 17, of_cd(ports, port, last, word, letter))
        }
        Event::M {
            port,
            chan,
            id,
            line,
        } => only(rule == 25, memory_data(ports, lines, port, chan, id, &line)),
        Event::S { port, addr, st } => only(
            rule == 29 && is_a(letter),
            silent(lines, port, addr, st),
        ),
        Event::L {
            port,
            addr,
            w,
            word,
            ..
        } => of_l(lines, port, addr, w, word, rule),
        Event::D { port, addr, .. } => only(rule == 32 && is_a(letter), store(lines, port, addr)),
        _ => None,
    }
}
