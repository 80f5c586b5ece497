// Answers by each policy: rows of the tables, and the first words of the generator.

use ace_codes::LineState::{I, SC, SD, UD};
use ace_codes::{LineState, SnoopKind};
use ace_policy::{Chosen, Eager, Keep, Listed, Mixed, Policy};
use ace_tables::{Row, snoop_rows};
use std::test::Fail;

/// What a policy picks, where there is a row.
fn picked<P: Policy>(policy: &mut P, snoop: SnoopKind, held: LineState) -> Option<Row> {
    if snoop_rows(snoop, held, false).count() == 0 {
        return None;
    }
    Some(policy.pick(snoop, held, false))
}

#[test]
fn picks_rows(rt: HostRuntime) -> Result<(), Fail> {
    let cases = [
        (SnoopKind::ReadShared, UD, 0x19, SD, 0x15, I),
        (SnoopKind::ReadClean, SC, 0x08, SC, 0x01, I),
        (SnoopKind::ReadUnique, UD, 0x15, I, 0x15, I),
        (SnoopKind::DvmMessage, SC, 0, I, 0, I),
    ];
    for (snoop, held, keeps, kept, gives, given) in cases {
        let keep = Row {
            resp: keeps,
            next: kept,
        };
        let give = Row {
            resp: gives,
            next: given,
        };
        assert_eq!(rt; picked(&mut Keep, snoop, held), Some(keep));
        assert_eq!(rt; picked(&mut Chosen::Keep, snoop, held), Some(keep));
        assert_eq!(rt; picked(&mut Eager, snoop, held), Some(give));
        assert_eq!(rt; picked(&mut Chosen::Eager, snoop, held), Some(give));
    }
    Ok(())
}

#[test]
fn mixes_rows(rt: HostRuntime) -> Result<(), Fail> {
    // the first eight words of PCG's reference generator, seeded with 42 on stream 1: 1307692281,
    // 3850602322, 1491967504, 4091771729, 3882238836, 1795024040, 2266118430 and 1938801432,
    // modulo the six rows
    let places = [3, 4, 4, 5, 0, 2, 0, 0];
    let rows = [
        (0x09, SD),
        (0x19, SD),
        (0x0d, SC),
        (0x1d, SC),
        (0x05, I),
        (0x15, I),
    ];
    let mut mixed = Mixed::new(42);
    let mut chosen = Chosen::Mixed(Mixed::new(42));
    for place in places {
        let (resp, next) = rows[place];
        let row = Some(Row { resp, next });
        assert_eq!(rt; picked(&mut mixed, SnoopKind::ReadShared, UD), row);
        assert_eq!(rt; picked(&mut chosen, SnoopKind::ReadShared, UD), row);
    }
    Ok(())
}

#[test]
fn takes_listed_rows(rt: HostRuntime) -> Result<(), Fail> {
    // 1, 255 and 4 modulo the six rows, and again
    let places = [1, 3, 4, 1, 3];
    let rows = [
        (0x09, SD),
        (0x19, SD),
        (0x0d, SC),
        (0x1d, SC),
        (0x05, I),
        (0x15, I),
    ];
    let picks = [1, 255, 4];
    let mut listed = Listed::new(rt.alloc(), &picks)?;
    let mut chosen = Chosen::Listed(Listed::new(rt.alloc(), &picks)?);
    for place in places {
        let (resp, next) = rows[place];
        let row = Some(Row { resp, next });
        assert_eq!(rt; picked(&mut listed, SnoopKind::ReadShared, UD), row);
        assert_eq!(rt; picked(&mut chosen, SnoopKind::ReadShared, UD), row);
    }
    Ok(())
}
