//! Short traces and their first breaks, as an independent checker gives them.

use crate::barrier_cases::{BARRIER_ADDRESSES, BARRIER_ANSWERS};
use crate::cases::Ports::{self, AceAndLite, ThreeAce, TwoAce};
use crate::cases::{Case, GET, ar, g, rk};
use crate::line_cases::{
    ACKNOWLEDGES, ADDRESSES, ANSWERS, GETS_A_HELD_LINE, GRANTS, PORTS_AND_CODES, SNOOPS, TRANSFERS,
};
use crate::record_cases::{LARGE_IDENTIFIERS, RECORDS_OF_NOTHING};
use ace_check::{CheckErr, Checker, Shares, Step};
use ace_codes::LineState::UC;
use ace_event::Channel::Read;
use ace_event::{Event, Header};
use std::alloc::Global;
use std::test::Fail;

const TWO_ACE: Header = Header {
    version: 1,
    ports: 2,
    ace: 3,
};

fn checker_for(alloc: Global, ports: Ports) -> Result<Checker, CheckErr> {
    match ports {
        TwoAce => Checker::new(alloc, TWO_ACE),
        ThreeAce => Checker::new(
            alloc,
            Header {
                version: 1,
                ports: 3,
                ace: 7,
            },
        ),
        AceAndLite => Checker::new(
            alloc,
            Header {
                version: 1,
                ports: 2,
                ace: 1,
            },
        ),
    }
}

/// Feeds the events, and tells the break that was answered last.
fn feed_all(checker: &mut Checker, events: &[Event]) -> Result<Option<(u64, u8)>, CheckErr> {
    let mut last = None;
    for e in events {
        last = match checker.feed(e)? {
            Step::Fine => None,
            Step::Broken { index, rule } => Some((index, rule)),
        };
    }
    Ok(last)
}

/// The break that the checker answers last for the events of the case, and how many events it took.
fn answered_by(checker: &mut Checker, case: &Case) -> Result<(Option<(u64, u8)>, u64), CheckErr> {
    feed_all(checker, case.front)?;
    let breaks = feed_all(checker, case.events)?;
    Ok((breaks, checker.count()))
}

/// The same of a new checker.
fn answer(alloc: Global, case: &Case) -> Result<(Option<(u64, u8)>, u64), CheckErr> {
    let mut checker = checker_for(alloc, case.ports)?;
    let answered = answered_by(&mut checker, case);
    drop(checker);
    answered
}

#[test]
fn first_breaks(rt: HostRuntime) -> Result<(), Fail> {
    for cases in [
        PORTS_AND_CODES,
        ADDRESSES,
        GRANTS,
        SNOOPS,
        ANSWERS,
        TRANSFERS,
        ACKNOWLEDGES,
        LARGE_IDENTIFIERS,
        RECORDS_OF_NOTHING,
        GETS_A_HELD_LINE,
        BARRIER_ADDRESSES,
        BARRIER_ANSWERS,
    ] {
        for (number, case) in cases.iter().enumerate() {
            let (breaks, taken) = answer(rt.alloc(), case)?;
            assert_eq!(rt; breaks, case.breaks, "case {number} of {}", cases.len());
            let fine = match case.breaks {
                Some((index, _)) => index.saturating_sub(1),
                None => (case.front.len() + case.events.len()) as u64,
            };
            assert_eq!(rt; taken, fine, "case {number} of {}", cases.len());
        }
    }
    Ok(())
}

/// After the first break each answer is that break.
fn is_lasting(checker: &mut Checker) -> Result<bool, CheckErr> {
    let first = feed_all(checker, &[rk!(0, UC)])?;
    let last = feed_all(checker, GET)?;
    Ok(first == Some((1, 22)) && last == first && checker.count() == 0)
}

#[test]
fn stays_broken(rt: HostRuntime) -> Result<(), Fail> {
    let mut checker = Checker::new(rt.alloc(), TWO_ACE)?;
    let lasting = is_lasting(&mut checker);
    drop(checker);
    assert!(rt; lasting?);
    Ok(())
}

/// Port 0 reads so many lines, one after the other. How many the checker takes, and why not the
/// next.
fn lines_taken(checker: &mut Checker, lines: u32) -> (u32, Option<CheckErr>) {
    for line in 0..lines {
        let id = (line % 256) as u8;
        if let Err(why) = checker.feed(&ar!(0, id, line.wrapping_mul(64), 7, 1, 0, false)) {
            return (line, Some(why));
        }
    }
    (lines, None)
}

/// A checker of three lines takes three, and one without a limit more than the others.
#[test]
fn limits_of_lines(rt: HostRuntime) -> Result<(), Fail> {
    for (most, taken) in [
        (0, (0, Some(CheckErr::TooManyLines))),
        (3, (3, Some(CheckErr::TooManyLines))),
        (usize::MAX, (5000, None)),
    ] {
        let mut checker = Checker::with_lines(rt.alloc(), TWO_ACE, most)?;
        let answered = lines_taken(&mut checker, 5000);
        drop(checker);
        assert!(rt; answered == taken);
    }
    Ok(())
}

/// The shares tell that each of the events may come next, and hear it.
fn hear_all(shares: &mut Shares, events: &[Event]) -> bool {
    let mut fine = true;
    for event in events {
        fine &= shares.keeps(event);
        shares.hear(event);
    }
    fine
}

/// The shares with room for a run tell which events may come next.
fn tell_of_a_run(shares: &mut Shares) -> bool {
    let early = shares.keeps(&g!(0, Read, 0));
    let fine = hear_all(shares, GET);
    fine && !early
        && !shares.keeps(&g!(0, Read, 0))
        && shares.ports().reads(0).is_empty()
        && shares.lines().lines() == 1
        && shares.system().open_pair(0).is_none()
}

#[test]
fn shares_of_a_run(rt: HostRuntime) -> Result<(), Fail> {
    let mut shares = Shares::new(rt.alloc(), TWO_ACE)?;
    let holds = tell_of_a_run(&mut shares);
    drop(shares);
    assert!(rt; holds);
    Ok(())
}
