//! The lines that come to a port by its reads and stores under way.

ghost use Rattle.std.specs.Prelude.{◌≡◌, ◌<◌, ℕ, length, slice_set};
ghost use Rattle.ace_master_state.specs.Arriving.{line_under};

use ace_event::Line;
use std::marker::Model;

/// A line for each identifier of a read.
#[derive(Drop)]
pub struct Arriving {
    lines: [Line; 16],
}

impl Model for Arriving {
    ghost use Rattle.std.specs.Prelude.{◌≡◌, List, length};
    ghost use Rattle.ace_event.specs.declared.line.Line.{Line};

    ghost Value = { List Line };

    ghost view = { λ a. a.lines };

    ghost invariant = { λ a. length a.lines ≡ 16 };
}

impl Arriving {
    /// Nothing has come yet.
    pub fn empty() -> Arriving
        ensures { (i : ℕ) → i < 16 → length (line_under result i).words ≡ 4 }
    {
        let zeros = Line { words: [0; 4] };
        Arriving { lines: [zeros; 16] }
    }

    /// The line under the identifier.
    pub fn get(&self, id: u8) -> Line
        ensures { result ≡ line_under self.now id }
    {
        match self.lines.get(usize::from(id)) {
            Some(line) => *line,
            None => Line { words: [0; 4] },
        }
    }

    /// Puts the word into the line under the identifier, which has four.
    pub fn put_word(&mut self, id: u8, number: u8, word: u128)
        ensures word { id < 16 → number < 4
            → self.new ≡ slice_set self.old id
            (record { words = slice_set (line_under self.old id).words number word }) }
        ensures sixteen { length self.old ≡ 16 }
    {
        let mut line = self.get(id);
        let number = usize::from(number % 4);
        line.words[number] = word;
        self.put(id, line);
    }

    /// Puts the line under the identifier.
    pub fn put(&mut self, id: u8, line: Line)
        ensures line { id < 16 → self.new ≡ slice_set self.old id line }
        ensures sixteen { length self.old ≡ 16 }
    {
        if id < 16 {
            self.lines[usize::from(id)] = line;
        }
    }
}
