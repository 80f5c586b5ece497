// What there is to cover.
ghost use Rattle.std.specs.Prelude.{◌≡◌};
ghost use Rattle.ace_tables.specs.States.{same_state};
ghost use Rattle.ace_points.specs.Same.{same_point, same_read, same_snoop, same_write};

use crate::situation::{Situation, same_situation};
use ace_codes::{ArKind, AwKind, LineState, SnoopKind};

/// A point of coverage: what an event of a trace can show.
#[derive(Clone, Copy, Debug)]
pub enum Point {
    /// An ACE port, or an ACE-Lite port, issues a read of this kind.
    Read {
        ace: bool,
        kind: ArKind,
    },
    /// It issues a write of this kind.
    Write {
        ace: bool,
        kind: AwKind,
    },
    /// A port issues an exclusive read of this kind.
    Exclusive {
        kind: ArKind,
    },
    /// An exclusive store has its grant, and passes or fails.
    ExclusiveStore {
        passes: bool,
    },
    /// An ACE port, or an ACE-Lite port, issues the read half of a barrier with this AxBAR.
    Barrier {
        ace: bool,
        bar: u8,
    },
    /// A port issues the second part of a DVM message.
    SecondPart,
    /// A port issues a DVM Sync.
    Sync,
    /// A port issues a transaction with this AxBAR.
    Bar {
        bar: u8,
    },
    /// A port issues a transaction with this AxDOMAIN.
    Domain {
        domain: u8,
    },
    /// A read of this kind is issued by a port that holds the line in this state.
    ReadStart {
        kind: ArKind,
        held: LineState,
    },
    /// A write of this kind is issued by a port that holds the line in this state.
    WriteStart {
        kind: AwKind,
        held: LineState,
    },
    /// A read ends: an exclusive store that failed or any other, in which state its port held the
    /// line until then, the bits IsShared and PassDirty of its first response, and the state in
    /// which it leaves the line.
    ReadEnd {
        kind: ArKind,
        failed: bool,
        held: LineState,
        shared: bool,
        dirty: bool,
        end: LineState,
    },
    /// A write ends: in which state its port held the line until then, and in which it leaves it.
    WriteEnd {
        kind: AwKind,
        held: LineState,
        end: LineState,
    },
    /// A snoop is answered: in which state the port held the line until then, the bits of CRRESP,
    /// and the state in which it leaves the line.
    Answer {
        kind: SnoopKind,
        held: LineState,
        resp: u8,
        next: LineState,
    },
    /// The same, where the port has a memory update of the line outstanding.
    AnswerWithUpdate {
        kind: SnoopKind,
        held: LineState,
        resp: u8,
        next: LineState,
    },
    /// A port changes its state of a line by itself.
    Silent {
        from: LineState,
        to: LineState,
    },
    /// A situation comes about.
    Met {
        situation: Situation,
    },
    /// A rule, K4 to K40, is asked in earnest: what else there is leaves room for another answer.
    Rule {
        rule: u8,
    },
}

/// Whether both kinds of reads are the same.
fn same_read(kind: ArKind, other: ArKind) -> bool
    ensures { result ≡ same_read kind other }
{
    kind == other
}

/// Whether both kinds of writes are the same.
fn same_write(kind: AwKind, other: AwKind) -> bool
    ensures { result ≡ same_write kind other }
{
    kind == other
}

/// Whether both kinds of snoops are the same.
fn same_snoop(kind: SnoopKind, other: SnoopKind) -> bool
    ensures { result ≡ same_snoop kind other }
{
    kind == other
}

/// Whether both states are the same.
fn same_state(st: LineState, other: LineState) -> bool
    ensures { result ≡ same_state st other }
{
    st == other
}

/// Whether both points are the same.
pub fn same_point(point: &Point, other: &Point) -> bool
    ensures { result ≡ same_point point.now other.now }
{
    match (*point, *other) {
        (Point::Read { ace, kind }, Point::Read { ace: a, kind: k }) => ace == a
            && same_read(kind, k),
        (Point::Write { ace, kind }, Point::Write { ace: a, kind: k }) => ace == a
            && same_write(kind, k),
        (Point::Exclusive { kind }, Point::Exclusive { kind: k }) => same_read(kind, k),
        (Point::ExclusiveStore { passes }, Point::ExclusiveStore { passes: p }) => passes == p,
        (Point::Barrier { ace, bar }, Point::Barrier { ace: a, bar: b }) => ace == a && bar == b,
        (Point::SecondPart, Point::SecondPart) => true,
        (Point::Sync, Point::Sync) => true,
        (Point::Bar { bar }, Point::Bar { bar: b }) => bar == b,
        (Point::Domain { domain }, Point::Domain { domain: d }) => domain == d,
        (Point::ReadStart { kind, held }, Point::ReadStart { kind: k, held: h }) => same_read(
            kind, k,
        ) && same_state(held, h),
        (Point::WriteStart { kind, held }, Point::WriteStart { kind: k, held: h }) => same_write(
            kind, k,
        ) && same_state(held, h),
        (
            Point::ReadEnd {
                kind,
                failed,
                held,
                shared,
                dirty,
                end,
            },
            Point::ReadEnd {
                kind: k,
                failed: f,
                held: h,
                shared: s,
                dirty: d,
                end: e,
            },
        ) => same_read(kind, k)
            && failed == f
            && same_state(held, h)
            && shared == s
            && dirty == d
            && same_state(end, e),
        (
            Point::WriteEnd { kind, held, end },
            Point::WriteEnd {
                kind: k,
                held: h,
                end: e,
            },
        ) => { same_write(kind, k) && same_state(held, h) && same_state(end, e) }
        (
            Point::Answer {
                kind,
                held,
                resp,
                next,
            },
            Point::Answer {
                kind: k,
                held: h,
                resp: r,
                next: n,
            },
        ) => { same_snoop(kind, k) && same_state(held, h) && resp == r && same_state(next, n) }
        (
            Point::AnswerWithUpdate {
                kind,
                held,
                resp,
                next,
            },
            Point::AnswerWithUpdate {
                kind: k,
                held: h,
                resp: r,
                next: n,
            },
        ) => same_snoop(kind, k) && same_state(held, h) && resp == r && same_state(next, n),
        (Point::Silent { from, to }, Point::Silent { from: f, to: t }) => same_state(from, f)
            && same_state(to, t),
        (Point::Rule { rule }, Point::Rule { rule: r }) => rule == r,
        (Point::Met { situation }, Point::Met { situation: s }) => same_situation(situation, s),
        _ => false,
    }
}
