//! Calls of one state against an array of words, and of the lines that ports have reserved.

ghost use Rattle.std.specs.Prelude.{◌≡◌, ◌<◌, ◌≤◌, ◌+◌, length};
ghost use Rattle.ace_live.specs.declared.setting.Setting.{Setting};

use crate::callers::is_fine;
use ace_event::Outcome;
use ace_live::LiveState;
use ace_model::{Op, PolicyWord};
use std::alloc::Global;
use std::test::Fail;

/// The words of eight lines, which line each of eight ports has reserved, and whether its last call
/// was the load that reserved it.
#[derive(Drop)]
struct Array {
    words: [u128; 32],
    reserved: [Option<u32>; 8],
    just_reserved: [bool; 8],
    /// All calls are exclusive loads and stores, and the policy is `keep`.
    exclusive: bool,
}

impl Array {
    /// The port stores the word: no other port has the line reserved from then on.
    fn store(&mut self, port: u8, place: usize, word: u128)
        requires { place < 32 }
    {
        self.words[place] = word;
        for other in 0..8u8 {
            if other != port && self.reserved[other as usize] == Some(place as u32 / 4) {
                self.reserved[other as usize] = None;
            }
        }
    }
}

/// Whether the port's exclusive store may end so: it is done only where the line is reserved. Where
/// all calls are exclusive and the policy is `keep`, it fails only where the line isn't reserved or
/// the port made another call since.
fn may_end(array: &Array, port: u8, line: u32, done: bool) -> bool
    requires { port < 8 }
{
    let reserved = array.reserved[port as usize] == Some(line);
    let was_just = array.exclusive && array.just_reserved[port as usize];
    if done {
        reserved
    } else {
        !(reserved && was_just)
    }
}

/// Whether a call of the port, which the number says, does what the array says.
fn agrees(state: &mut LiveState, array: &mut Array, port: u8, number: u32) -> bool
    requires port { port < 8 }
    requires low { port < state.old.setting.ports }
    requires room { length state.old.history < state.old.setting.room }
    ensures setting { state.new.setting ≡ state.old.setting }
    ensures history { length state.new.history ≡ length state.old.history + 1 }
{
    let place = (number % 32) as usize;
    let line = number % 32 / 4;
    let addr = line * 64;
    let w = (number % 4) as u8;
    let word = u128::from(number);
    let kind = if array.exclusive {
        4 + number / 32 % 2
    } else {
        number / 32 % 8
    };
    let right = match kind {
        0 | 1 => state.call(port, Op::Ld { addr, w }).word == array.words[place],
        2 => {
            array.store(port, place, word);
            state.call(port, Op::St { addr, w, word }).res == Outcome::Ok
        }
        3 | 4 => {
            array.reserved[port as usize] = Some(line);
            state.call(port, Op::Ldx { addr, w }).word == array.words[place]
        }
        5 | 6 => {
            let done = state.call(port, Op::Stx { addr, w, word }).res == Outcome::Ok;
            let right = may_end(array, port, line, done);
            if done {
                array.store(port, place, word);
                array.reserved[port as usize] = None;
            }
            right
        }
        _ => state.call(port, Op::Wb { addr }).res != Outcome::Fail,
    };
    array.just_reserved[port as usize] = kind == 3 || kind == 4;
    right
}

/// What a run is made from.
#[derive(Drop)]
struct Setup {
    ports: u8,
    ways: u8,
    policy: PolicyWord,
    seed: u32,
    exclusive: bool,
}

/// Whether 600 calls, made from the seed, do what the array says, and a checker finds their trace
/// fine.
fn all_agree(alloc: Global, setup: &Setup) -> Result<bool, Fail>
    requires some_port { 1 ≤ setup.now.ports }
    requires most_ports { setup.now.ports ≤ 8 }
    requires some_way { 1 ≤ setup.now.ways }
    requires most_ways { setup.now.ways ≤ 32 }
{
    let mut state = LiveState::new(alloc, setup.ports, setup.ways, setup.policy, 600)?;
    let mut array = Array {
        words: [0; 32],
        reserved: [None; 8],
        just_reserved: [false; 8],
        exclusive: setup.exclusive,
    };
    let mut seed = setup.seed;
    let mut agree = true;
    for _ in 0..600u16 {
        seed = seed.wrapping_mul(1664525).wrapping_add(1013904223);
        let number = seed / 4096;
        let port = (number / 256 % u32::from(setup.ports)) as u8;
        if state.room() > 0 {
            agree = agrees(&mut state, &mut array, port, number) && agree;
        }
    }
    let system = state.end();
    let fine = is_fine(alloc, &system);
    drop(system);
    Ok(agree && fine)
}

/// Whether ten runs of calls of all kinds agree, from this number on: 1 to 8 ports, caches of 1 to
/// 5 lines.
fn runs_agree(alloc: Global, policy: PolicyWord, first: u32) -> Result<bool, Fail>
    requires { first ≤ 1000 }
{
    let mut agree = true;
    for step in 0..10u32 {
        let number = first + step;
        let setup = Setup {
            ports: (number % 8 + 1) as u8,
            ways: (number % 5 + 1) as u8,
            policy,
            seed: number,
            exclusive: false,
        };
        agree = all_agree(alloc, &setup)? && agree;
    }
    Ok(agree)
}

#[test]
fn words_are_those_of_an_array_by_keep(rt: HostRuntime) -> Result<(), Fail> {
    assert!(rt; runs_agree(rt.alloc(), PolicyWord::Keep, 0)?);
    Ok(())
}

#[test]
fn words_are_those_of_an_array_by_keep_again(rt: HostRuntime) -> Result<(), Fail> {
    assert!(rt; runs_agree(rt.alloc(), PolicyWord::Keep, 10)?);
    Ok(())
}

#[test]
fn words_are_those_of_an_array_by_eager(rt: HostRuntime) -> Result<(), Fail> {
    assert!(rt; runs_agree(rt.alloc(), PolicyWord::Eager, 0)?);
    Ok(())
}

#[test]
fn words_are_those_of_an_array_by_eager_again(rt: HostRuntime) -> Result<(), Fail> {
    assert!(rt; runs_agree(rt.alloc(), PolicyWord::Eager, 10)?);
    Ok(())
}

#[test]
fn words_are_those_of_an_array_by_mixed(rt: HostRuntime) -> Result<(), Fail> {
    assert!(rt; runs_agree(rt.alloc(), PolicyWord::Mixed(42), 0)?);
    Ok(())
}

#[test]
fn words_are_those_of_an_array_by_mixed_again(rt: HostRuntime) -> Result<(), Fail> {
    assert!(rt; runs_agree(rt.alloc(), PolicyWord::Mixed(42), 10)?);
    Ok(())
}

/// Runs of exclusive loads and stores by `keep`: a store right after the load of its line fails
/// only where another port stored to the line.
#[test]
fn exclusive_stores_fail_where_another_stored(rt: HostRuntime) -> Result<(), Fail> {
    let mut agree = true;
    for number in 0..8u32 {
        let setup = Setup {
            ports: (number % 8 + 1) as u8,
            ways: (number % 5 + 1) as u8,
            policy: PolicyWord::Keep,
            seed: number,
            exclusive: true,
        };
        agree = all_agree(rt.alloc(), &setup)? && agree;
    }
    assert!(rt; agree);
    Ok(())
}
