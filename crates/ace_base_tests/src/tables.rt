// How many rows the tables have, and lists of them.

use ace_codes::LineState::{I, SC, SD, UC, UD};
use ace_codes::{ArKind, AwKind, LineState, SnoopKind};
use ace_tables::{
    Row, RowList, end_read, end_write, silent_ok, snoop_of_read, snoop_of_write, snoop_rows,
    start_read_ok, start_write_ok,
};

const SNOOPS: [SnoopKind; 10] = [
    SnoopKind::ReadOnce,
    SnoopKind::ReadShared,
    SnoopKind::ReadClean,
    SnoopKind::ReadNotSharedDirty,
    SnoopKind::ReadUnique,
    SnoopKind::CleanShared,
    SnoopKind::CleanInvalid,
    SnoopKind::MakeInvalid,
    SnoopKind::DvmComplete,
    SnoopKind::DvmMessage,
];

const STATES: [LineState; 5] = [I, UC, UD, SC, SD];

/// How many rows all snoops have together, with a memory update of the line outstanding or not.
fn count_of_rows(update: bool) -> u32 {
    let mut count = 0u32;
    for snoop in SNOOPS {
        for held in STATES {
            count = count.wrapping_add(u32::from(snoop_rows(snoop, held, update).count()));
        }
    }
    count
}

/// Whether the list has these rows and no others, in this order.
fn are_rows(list: &RowList, rows: &[(u8, LineState)]) -> bool {
    for (i, (resp, next)) in rows.iter().enumerate() {
        if i >= usize::from(list.count())
            || list.row(i as u8)
                != (Row {
                    resp: *resp,
                    next: *next,
                })
        {
            return false;
        }
    }
    usize::from(list.count()) == rows.len()
}

#[test]
fn counts_of_rows(rt: HostRuntime) {
    assert_eq!(rt; (count_of_rows(false), count_of_rows(true)), (156, 60));
}

#[test]
fn lists_of_rows(rt: HostRuntime) {
    let cases: [(SnoopKind, LineState, bool, &[(u8, LineState)]); 6] = [
        (
            SnoopKind::ReadShared,
            UD,
            false,
            &[(9, SD), (25, SD), (13, SC), (29, SC), (5, I), (21, I)],
        ),
        (SnoopKind::ReadShared, UD, true, &[(9, SD), (25, SD)]),
        (
            SnoopKind::ReadUnique,
            UC,
            false,
            &[(0, I), (16, I), (1, I), (17, I)],
        ),
        (SnoopKind::MakeInvalid, UD, false, &[(0, I), (16, I)]),
        (SnoopKind::CleanInvalid, UD, true, &[]),
        (SnoopKind::DvmMessage, SC, true, &[(0, I)]),
    ];
    for (snoop, held, update, rows) in cases {
        assert!(rt; are_rows(&snoop_rows(snoop, held, update), rows));
    }
}

#[test]
fn snoops_of_transactions(rt: HostRuntime) {
    assert!(rt; snoop_of_read(ArKind::MakeInvalid) == Some(SnoopKind::MakeInvalid));
    assert!(rt; snoop_of_read(ArKind::ReadNoSnoop) == None);
    assert!(rt; snoop_of_write(AwKind::WriteLineUnique) == Some(SnoopKind::MakeInvalid));
}

#[test]
fn states_of_transactions(rt: HostRuntime) {
    let facts = [
        (start_read_ok(ArKind::CleanUnique, SD), true),
        (start_read_ok(ArKind::CleanUnique, I), false),
        (start_write_ok(AwKind::Evict, SC), true),
        (start_write_ok(AwKind::WriteEvict, SC), false),
        (
            end_read(ArKind::ReadUnique, I, false, true, false).has(UD),
            true,
        ),
        (
            end_read(ArKind::ReadUnique, I, true, false, false).has(SC),
            false,
        ),
        (
            end_read(ArKind::CleanUnique, SC, false, false, true).has(SC),
            true,
        ),
        (
            end_read(ArKind::CleanUnique, SC, false, false, true).has(UC),
            false,
        ),
        (end_write(AwKind::WriteClean, UD).has(UC), true),
        (end_write(AwKind::WriteBack, UD).has(UC), false),
        (silent_ok(UD, SD), true),
        (silent_ok(SD, I), false),
    ];
    for (n, (is_so, wanted)) in facts.iter().enumerate() {
        assert_eq!(rt; *is_so, *wanted, "fact {n}");
    }
}
