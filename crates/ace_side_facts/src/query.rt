/// What is asked of a side file beside the names of ports.
#[derive(Clone, Copy)]
pub struct Query<'a> {
    /// The events whose times are asked for.
    pub events: &'a [u64],
    /// Those whose remarks are asked for: a few, as each remark is looked for among them.
    pub notes: &'a [u64],
    /// The lines whose real addresses are asked for: a few, for the same reason.
    pub lines: &'a [u32],
}
