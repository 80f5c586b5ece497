/// Which points a table names, below the rows of the groups.
#[derive(Clone, Copy, Debug, PartialEq, Eq)]
pub enum Listing {
    /// The first twelve of each group that were never hit.
    Few,
    /// All that were never hit.
    All,
    /// Every point, with its count.
    Counts,
}
