use crate::SideErr;

/// How far a reader has come.
#[derive(Clone, Copy)]
pub enum Stage {
    /// It reads on.
    Reading,
    /// It has read the whole file.
    Ended,
    /// It has met this error.
    Failed(SideErr),
}
