// What is told of a trace.
ghost use Rattle.std.specs.Prelude.{◌≡◌, ◌≢◌, ◌≤◌, length};
ghost use Rattle.ace_tool.specs.Reports.{open_text, status_of, status_of_fault, status_of_verdict};
ghost use Rattle.ace_explanation.specs.Texts.{verdict_text};

use crate::folder::OpenErr;
use crate::gap::Gap;
use crate::packing::Packing;
use crate::side::SideFault;
use ace_verdict::Verdict;
use arrayvec::ArrayString;

/// An accepted trace.
#[derive(Clone, Copy)]
pub struct Accepted {
    pub events: u64,
    /// How many transactions are outstanding at its end.
    pub outstanding: u64,
}

/// What is told of a trace.
#[derive(Clone, Copy)]
pub enum Report {
    /// The verdict on it, and how many transactions are outstanding at the end of an accepted
    /// trace; else 0.
    Told { verdict: Verdict, outstanding: u64 },
    /// Its file could not be opened.
    Shut { error: OpenErr },
    /// Its file is compressed.
    Compressed { packing: Packing },
    /// Each of its events is accepted, and the recording is broken off.
    Unfinished { events: u64, gap: Gap },
    /// Each of its events is accepted, and its side file tells nothing.
    BadSide { fault: SideFault },
}

/// The status of a verdict.
pub(crate) fn status_of_verdict(verdict: Verdict) -> u8
    ensures { result ≡ status_of_verdict verdict }
{
    match verdict {
        Verdict::Accepted { .. } => 0,
        Verdict::Refused { .. } => 1,
        Verdict::Malformed { .. } => 3,
        Verdict::ReadFault => 4,
        Verdict::LimitEvents | Verdict::LimitLines => 6,
        Verdict::NoMemory => 7,
    }
}

/// The status where a side file tells nothing.
pub(crate) fn status_of_fault(fault: SideFault) -> u8
    ensures { result ≡ status_of_fault fault }
{
    match fault {
        SideFault::Malformed { .. } => 3,
        SideFault::ReadFault | SideFault::Shut { .. } => 4,
        SideFault::NoMemory => 7,
    }
}

/// The status of a report.
pub(crate) fn status_of(report: &Report) -> u8
    ensures { result ≡ status_of report.now }
{
    match report {
        Report::Told { verdict, .. } => status_of_verdict(*verdict),
        Report::Shut { .. } | Report::Compressed { .. } => 4,
        Report::Unfinished { .. } => 8,
        Report::BadSide { fault } => status_of_fault(*fault),
    }
}

/// The text of a verdict, as `ace check` says it, with room behind it.
pub(crate) fn verdict_text(verdict: Verdict) -> ArrayString<384>
    ensures { result.bytes ≡ verdict_text verdict }
{
    let mut text = ArrayString::new();
    text.push_str(ace_explanation::verdict_text(verdict).as_str());
    text
}

/// Why a file could not be opened, in words.
pub(crate) fn open_text(error: OpenErr) -> &'static str
    ensures value { result.now ≡ open_text error }
    ensures short { length result.now ≤ 40 }
{
    match error {
        OpenErr::NotThere => "No such file or directory",
        OpenErr::NotAllowed => "Permission denied",
        OpenErr::NoName | OpenErr::Failed => "cannot be opened",
    }
}
