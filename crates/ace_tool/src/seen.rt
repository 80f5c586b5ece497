// Which statuses occurred.
ghost use Rattle.std.specs.Prelude.{◌≡◌, ◌≢◌, ◌≤◌, ℕ, List, [], ◌∷◌};
ghost use Rattle.ace_tool.specs.Reports.{first_of, status_of, status_of_all};

use crate::report::{Report, status_of};

/// Which statuses were those of a trace.
#[derive(Drop)]
pub(crate) struct Seen {
    some: bool,
    refused: bool,
    malformed: bool,
    broken_off: bool,
    limited: bool,
    unreadable: bool,
    no_memory: bool,
}

impl Seen {
    ghost use Rattle.ace_tool.specs.Seen.{HasSeen};

    /// There was no trace yet.
    pub(crate) fn new() -> Seen
        ensures { HasSeen result [] }
    {
        Seen {
            some: false,
            refused: false,
            malformed: false,
            broken_off: false,
            limited: false,
            unreadable: false,
            no_memory: false,
        }
    }

    /// There was one more.
    pub(crate) fn add(&mut self, report: &Report)
        ensures { (statuses : List ℕ) → HasSeen self.old statuses
            → HasSeen self.new (status_of report.now ∷ statuses) }
    {
        self.some = true;
        match status_of(report) {
            1 => self.refused = true,
            3 => self.malformed = true,
            8 => self.broken_off = true,
            6 => self.limited = true,
            4 => self.unreadable = true,
            7 => self.no_memory = true,
            _ => {}
        }
    }

    /// The status of all of them.
    pub(crate) fn status(&self) -> u8
        ensures value { (statuses : List ℕ) → HasSeen self.now statuses → result
            ≡ status_of_all statuses }
        ensures bound { result ≤ 8 }
        ensures no_write_fault { result ≢ 5 }
    {
        if !self.some {
            2
        } else if self.refused {
            1
        } else if self.malformed {
            3
        } else if self.broken_off {
            8
        } else if self.limited {
            6
        } else if self.unreadable {
            4
        } else if self.no_memory {
            7
        } else {
            0
        }
    }
}
