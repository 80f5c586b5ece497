/// How many transfers a sentence tells of.
#[derive(Clone, Copy)]
pub enum Transfers {
    /// One.
    One,
    /// Several, one after another.
    Several,
    /// The one of this number, from 1, of so many.
    Nth { number: u8, beats: u8 },
}
