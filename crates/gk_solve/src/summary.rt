/// A group of words of a point: what is preserved up to it from its procedure's entry, and what is generated on the way.
#[derive(Clone, Copy)]
pub(crate) struct Summary<const W: usize> {
    /// The bits that some path preserves.
    pub preserved: [u64; W],
    /// The bits that some path makes.
    pub generated: [u64; W],
}
