//! Where the records of lines are looked for first.

/// How many places are remembered.
const HINTS: usize = 1024;

/// For each number that a line can have, where the record of the last line with the number stands.
/// It is a guess, of which nothing is promised: whoever takes it looks whether the line stands
/// there.
#[derive(Clone, Copy)]
pub struct Hints {
    places: [u32; HINTS],
}

/// The number of the line.
#[inline(always)]
fn number_of(line: u32) -> usize {
    (line as usize / 64) % HINTS
}

impl Hints {
    /// No line stands anywhere.
    pub fn new() -> Hints {
        Hints { places: [0; HINTS] }
    }

    /// Where the record of the line may stand.
    #[inline(always)]
    pub fn guess(&self, line: u32) -> usize {
        match self.places.get(number_of(line)) {
            Some(place) => *place as usize,
            None => 0,
        }
    }

    /// The record of the line stands there, if it stands anywhere.
    pub fn put(&mut self, line: u32, place: Option<usize>) {
        let Some(place) = place else {
            return;
        };
        if let (Some(kept), Ok(place)) = (
            self.places.get_mut(number_of(line)),
            u32::try_from(place),
        ) {
            *kept = place;
        }
    }
}
