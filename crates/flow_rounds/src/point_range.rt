// The points of a procedure.

/// The points from the first on and before the end.
#[derive(Clone, Copy)]
pub struct PointRange {
    /// The first point.
    pub first: u32,
    /// The point behind the last.
    pub end: u32,
}
