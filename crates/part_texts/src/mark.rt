// Where a line stands.

/// Where a line stands among those of all parts.
#[derive(Clone, Copy)]
pub(crate) struct Mark {
    /// The section: of lines of JSON the points are one, the remarks the next, and the last line is the last; a report has one.
    pub(crate) section: u8,
    /// The line of the program, or the point, on which it is.
    pub(crate) number: u32,
    /// The place of its kind among those on a line or a point.
    pub(crate) kind: u32,
}
