/// What is marked of a point.
#[derive(Clone, Copy)]
pub struct PointMarks {
    /// Whether a valid path leads there.
    pub reached: bool,
    /// Whether its statement reads a variable that may not be set there; never where it is not reached.
    pub unset: bool,
    /// Whether its statement is an assignment that is dead; never where it is not reached.
    pub dead: bool,
    /// Whether what follows may never end.
    pub doubtful: bool,
}
