/// A bit that is asked: of a column, at a point.
#[derive(Clone, Copy, Debug)]
pub struct Ask {
    /// The column.
    pub column: u32,
    /// The point.
    pub point: u32,
}

/// What bounds tell of a bit that is asked.
#[derive(Clone, Copy, Debug, PartialEq, Eq)]
pub enum Told {
    /// Nothing: they do not agree.
    Nothing,
    /// It is in the may form's set at the point.
    Has,
    /// It is not.
    Lacks,
}
