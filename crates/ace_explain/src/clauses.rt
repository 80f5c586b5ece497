//! The clause of a rule that an event breaks.

ghost use Rattle.std.specs.Prelude.{◌≤◌, ◌<◌};
ghost use Rattle.ace_explain.specs.Names.{IsClause};

use crate::address_clauses::{
    clause_of_k1, clause_of_k2, clause_of_k3, clause_of_k7, clause_of_k9, clause_of_k10,
};
use crate::answer_clauses::{clause_of_k15, clause_of_k16};
use crate::bit_clauses::clause_of_k19;
use crate::cache_clauses::{clause_of_k29, clause_of_k32};
use crate::end_clauses::clause_of_k23;
use crate::last_loads::LastLoads;
use crate::load_clauses::clause_of_k33;
use crate::memory_clauses::{clause_of_k24, clause_of_k25};
use crate::order_clauses::{clause_of_k34, clause_of_k36, clause_of_k37, clause_of_k39};
use crate::read_clauses::{clause_of_k20, clause_of_k21};
use crate::snoop_clauses::{clause_of_k11, clause_of_k12, clause_of_k13, clause_of_k17};
use crate::transfer_clauses::clause_of_k18;
use crate::write_clauses::{clause_of_k26, clause_of_k28};
use ace_check::Shares;
use ace_clauses::Letter;
use ace_event::Event;

/// The clause of one of K1 to K10.
fn address_clause(shares: &Shares, loads: &LastLoads, event: &Event, rule: u8) -> Letter
    ensures { rule ≤ 10 → IsClause shares.now loads.now event.now rule result }
{
    let ports = shares.ports();
    match rule {
        1 => clause_of_k1(ports.header(), event),
        2 => clause_of_k2(event),
        3 => clause_of_k3(ports, event),
        4 => Letter::A,
        5 => Letter::A,
        6 => Letter::A,
        7 => clause_of_k7(ports.header(), event),
        8 => Letter::A,
        9 => clause_of_k9(ports, shares.system(), event),
        10 => clause_of_k10(event),
        _ => Letter::A,
    }
}

/// The clause of one of K11 to K17.
fn snoop_clause(shares: &Shares, loads: &LastLoads, event: &Event, rule: u8) -> Letter
    ensures { 10 < rule → rule ≤ 17 → IsClause shares.now loads.now event.now rule result }
{
    let ports = shares.ports();
    match rule {
        11 => clause_of_k11(ports, event),
        12 => clause_of_k12(ports, event),
        13 => clause_of_k13(shares, event),
        14 => Letter::A,
        15 => clause_of_k15(ports, shares.lines(), event),
        16 => clause_of_k16(ports, event),
        17 => clause_of_k17(ports, event),
        _ => Letter::A,
    }
}

/// The clause of one of K18 to K23.
fn read_clause(shares: &Shares, loads: &LastLoads, event: &Event, rule: u8) -> Letter
    ensures { 17 < rule → rule ≤ 23 → IsClause shares.now loads.now event.now rule result }
{
    let ports = shares.ports();
    let lines = shares.lines();
    match rule {
        18 => clause_of_k18(shares, event),
        19 => clause_of_k19(ports, lines, event),
        20 => clause_of_k20(ports, event),
        21 => clause_of_k21(ports, shares.system(), event),
        22 => Letter::A,
        23 => clause_of_k23(ports, lines, event),
        _ => Letter::A,
    }
}

/// The clause of one of K24 to K28.
fn write_clause(shares: &Shares, loads: &LastLoads, event: &Event, rule: u8) -> Letter
    ensures { 23 < rule → rule ≤ 28 → IsClause shares.now loads.now event.now rule result }
{
    let ports = shares.ports();
    match rule {
        24 => clause_of_k24(ports, shares.lines(), event),
        25 => clause_of_k25(ports, event),
        26 => clause_of_k26(ports, event),
        27 => Letter::A,
        28 => clause_of_k28(ports, event),
        _ => Letter::A,
    }
}

/// The clause of one of K29 to K33.
fn cache_clause(shares: &Shares, loads: &LastLoads, event: &Event, rule: u8) -> Letter
    ensures { 28 < rule → rule ≤ 33 → IsClause shares.now loads.now event.now rule result }
{
    match rule {
        29 => clause_of_k29(shares.lines(), event),
        30 => Letter::A,
        31 => Letter::A,
        32 => clause_of_k32(shares.ports(), shares.lines(), event),
        33 => clause_of_k33(loads, event),
        _ => Letter::A,
    }
}

/// The clause of one of K34 to K40.
fn order_clause(shares: &Shares, loads: &LastLoads, event: &Event, rule: u8) -> Letter
    ensures { 33 < rule → IsClause shares.now loads.now event.now rule result }
{
    let ports = shares.ports();
    let system = shares.system();
    match rule {
        34 => clause_of_k34(ports, system, event),
        35 => Letter::A,
        36 => clause_of_k36(system, event),
        37 => clause_of_k37(ports, system, event),
        38 => Letter::A,
        39 => clause_of_k39(system, event),
        40 => Letter::A,
        _ => Letter::A,
    }
}

/// The clause of the rule that the event breaks after the trace of which the shares and the last
/// exclusive loads tell: the first that is false, where the rule is the least that the event
/// breaks.
pub fn clause(shares: &Shares, loads: &LastLoads, event: &Event, rule: u8) -> Letter
    ensures { IsClause shares.now loads.now event.now rule result }
{
    match rule {
        0..=10 => address_clause(shares, loads, event, rule),
        11..=17 => snoop_clause(shares, loads, event, rule),
        18..=23 => read_clause(shares, loads, event, rule),
        24..=28 => write_clause(shares, loads, event, rule),
        29..=33 => cache_clause(shares, loads, event, rule),
        _ => order_clause(shares, loads, event, rule),
    }
}
