// Whether the recording of an accepted trace is whole.
ghost use Rattle.std.specs.Prelude.{◌≡◌};
ghost use Rattle.ace_tool.specs.Gaps.{gap_at, gap_open, gap_without, judged, report_by, report_with};

use crate::check_options::EndRules;
use crate::report::{Accepted, Report};
use crate::side::SideFound;
use ace_side::SideEnd;
use ace_verdict::Verdict;
use arrayvec::ArrayString;

/// Why a recording counts as broken off, though each event is accepted.
#[derive(Clone, Copy)]
pub enum Gap {
    /// There is no side file, and one has to be.
    NoSide,
    /// The side file has no last line.
    NoEnd,
    /// Its END has this number of events, and the trace another one.
    OtherEnd {
        count: u64,
    },
    /// So does its CUT, which would do.
    OtherCut {
        count: u64,
    },
    /// The recorder stopped after so many events; this is its last note.
    Stopped {
        count: u64,
        note: Option<ArrayString<256>>,
    },
    /// The recording was cut after so many events.
    Cut {
        count: u64,
    },
    /// So many transactions are outstanding at its end, and none may be.
    Open {
        outstanding: u64,
    },
}

/// The gap of a trace of so many events whose side file ends so.
fn gap_at(
    ends: EndRules,
    events: u64,
    end: Option<SideEnd>,
    note: Option<ArrayString<256>>,
) -> Option<Gap>
    ensures { result ≡ gap_at ends events end note }
{
    match end {
        None => Some(Gap::NoEnd),
        Some(SideEnd::End(count)) if count == events => None,
        Some(SideEnd::End(count)) => Some(Gap::OtherEnd { count }),
        Some(SideEnd::Broken(count)) => Some(Gap::Stopped { count, note }),
        Some(SideEnd::Cut(count)) if !ends.allow_cut => Some(Gap::Cut { count }),
        Some(SideEnd::Cut(count)) if count == events => None,
        Some(SideEnd::Cut(count)) => Some(Gap::OtherCut { count }),
    }
}

/// The gap of a trace without a side file.
fn gap_without(ends: EndRules) -> Option<Gap>
    ensures { result ≡ gap_without ends }
{
    if ends.require_end {
        Some(Gap::NoSide)
    } else {
        None
    }
}

/// The gap of a trace at whose end so many transactions are outstanding, if none may be.
fn gap_open(ends: EndRules, outstanding: u64) -> Option<Gap>
    ensures { result ≡ gap_open ends outstanding }
{
    if ends.drained && outstanding != 0 {
        Some(Gap::Open { outstanding })
    } else {
        None
    }
}

/// What is told of an accepted trace that has this gap or none.
fn report_with(accepted: Accepted, gap: Option<Gap>) -> Report
    ensures { result ≡ report_with accepted gap }
{
    let events = accepted.events;
    match gap {
        Some(gap) => Report::Unfinished { events, gap },
        None => Report::Told {
            verdict: Verdict::Accepted { events },
            outstanding: accepted.outstanding,
        },
    }
}

/// What is told of an accepted trace whose side file tells of this gap or of none.
fn report_by(ends: EndRules, accepted: Accepted, gap: Option<Gap>) -> Report
    ensures { result ≡ report_by ends accepted gap }
{
    match gap {
        Some(gap) => report_with(accepted, Some(gap)),
        None => report_with(accepted, gap_open(ends, accepted.outstanding)),
    }
}

/// What is told of an accepted trace, by what is found of its side file.
pub(crate) fn judge(ends: EndRules, accepted: Accepted, found: SideFound) -> Report
    ensures { result ≡ judged ends accepted found }
{
    match found {
        SideFound::Absent => report_by(ends, accepted, gap_without(ends)),
        SideFound::Ends { end, note } => {
            report_by(ends, accepted, gap_at(ends, accepted.events, end, note))
        }
        SideFound::Faulty { fault } => Report::BadSide { fault },
    }
}
