// Answers to a snoop, and lists of them.
ghost use Rattle.std.specs.Prelude.{◌≡◌, ◌<◌, ◌≤◌, List, [], ◌∷◌, ◌++◌, Some, length, take, slice_get};
ghost use Rattle.ace_tables.specs.declared.rows.Row.{Row};

use ace_codes::LineState;
use std::marker::Model;

/// An answer to a snoop: CRRESP, 0 to 31, and the state in which the port then holds the line.
#[derive(Clone, Copy, Debug, PartialEq, Eq)]
pub struct Row {
    pub resp: u8,
    pub next: LineState,
}

/// How many rows a list has room for: no snoop has more.
pub(crate) const MOST_ROWS: usize = 12;

/// A list of at most 12 answers. Contracts see the list.
#[derive(Drop)]
pub struct RowList {
    rows: [Row; MOST_ROWS],
    len: u8,
}

impl Model for RowList {
    ghost Value = { List Row };

    ghost view = { λ list. take list.len list.rows };

    ghost invariant = { λ list. (list.len ≤ 12) × (length list.rows ≡ 12) };
}

impl RowList {
    /// The list of no rows.
    pub(crate) fn empty() -> RowList
        ensures { result ≡ [] }
    {
        let none = Row {
            resp: 0,
            next: LineState::I,
        };
        RowList {
            rows: [none; MOST_ROWS],
            len: 0,
        }
    }

    /// Puts a row at the end.
    pub(crate) fn push(&mut self, row: Row)
        requires { length self.old < 12 }
        ensures { self.new ≡ self.old ++ row ∷ [] }
    {
        self.rows[self.len as usize] = row;
        self.len += 1;
    }

    /// How many rows there are.
    pub fn count(&self) -> u8
        ensures count { result ≡ length self.now }
        ensures most { result ≤ 12 }
    {
        self.len
    }

    /// The row at place `i`, from 0.
    pub fn row(&self, i: u8) -> Row
        requires { i < length self.now }
        ensures { slice_get self.now i ≡ Some result }
    {
        self.rows[i as usize]
    }
}
