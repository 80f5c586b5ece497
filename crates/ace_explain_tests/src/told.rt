//! Short traces, each with the clause that its last event breaks. The definitions compute the same
//! clauses of the same traces, in the worked rows beside them.

use crate::address_rows::ADDRESS_ROWS;
use crate::cache_rows::CACHE_ROWS;
use crate::order_rows::ORDER_ROWS;
use crate::read_rows::READ_ROWS;
use crate::rows::Row;
use crate::snoop_rows::SNOOP_ROWS;
use crate::write_rows::WRITE_ROWS;
use ace_check::{CheckErr, Checker, Step};
use ace_clauses::Letter;
use ace_explain::{LastLoads, clause};
use ace_grammar::parse_ports;
use std::alloc::Global;
use std::test::Fail;

/// The place of the letter, from 0.
fn place_of(letter: Letter) -> u8 {
    match letter {
        Letter::A => 0,
        Letter::B => 1,
        Letter::C => 2,
        Letter::D => 3,
        Letter::E => 4,
        Letter::F => 5,
        Letter::G => 6,
        Letter::H => 7,
        Letter::I => 8,
    }
}

/// What the checker answers of the last event of the row, and the clause that is told of it.
fn told_by(checker: &mut Checker, row: &Row) -> Result<(Step, Letter), CheckErr> {
    let mut loads = LastLoads::new();
    let mut last = Step::Fine;
    let mut letter = Letter::A;
    for event in row.events {
        letter = clause(checker.shares(), &loads, event, row.rule);
        last = checker.feed(event)?;
        loads.hear(event);
    }
    Ok((last, letter))
}

/// The last event of the row is the first break, by its rule, and the letter that is told is its.
fn is_told(alloc: Global, row: &Row) -> Result<bool, CheckErr> {
    if row.version != 1 && row.version != 2 {
        return Ok(false);
    }
    let Some(header) = parse_ports(row.ports.as_bytes(), row.version) else {
        return Ok(false);
    };
    let mut checker = Checker::new(alloc, header)?;
    let told = told_by(&mut checker, row);
    drop(checker);
    let (last, letter) = told?;
    let place = match last {
        Step::Fine => None,
        Step::Broken { index, rule } => Some((index, rule)),
    };
    let own = place_of(letter) == place_of(row.letter);
    Ok(place == Some((row.events.len() as u64, row.rule)) && own)
}

#[test]
fn clauses_of_short_traces(rt: HostRuntime) -> Result<(), Fail> {
    for rows in [
        ADDRESS_ROWS,
        SNOOP_ROWS,
        READ_ROWS,
        WRITE_ROWS,
        CACHE_ROWS,
        ORDER_ROWS,
    ] {
        for (number, row) in rows.iter().enumerate() {
            let told = is_told(rt.alloc(), row)?;
            assert!(rt; told, "row {number} of {}", rows.len());
        }
    }
    Ok(())
}
