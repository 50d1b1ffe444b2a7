use flow_reports::Remark;

/// What is told at a point. Procedures are held by number.
#[derive(Debug, Clone, Copy, PartialEq, Eq)]
pub enum Lint {
    /// The procedure begins at the point, and no valid path enters it.
    NeverCalled { procedure: u32 },
    /// A remark on the statement. That it is never reached stands for all statements behind it up to the next point that is reached; that the
    /// variable it assigns is dead, is by doubt on executions.
    Told { remark: Remark },
}

/// A lint, and the point at which it is told.
#[derive(Debug, Clone, Copy, PartialEq, Eq)]
pub struct PlacedLint {
    pub point: u32,
    pub lint: Lint,
}

/// All that is told of a program.
#[derive(Drop)]
pub struct Linted {
    /// The lints, in the order of points.
    pub lints: Vec<PlacedLint>,
    /// How many dead assignments are left out since executions may come behind them to where they never end.
    pub left_out: u32,
    /// The first point that is reached and from which no valid path leads to the end of `main`, if there is one.
    pub endless: Option<u32>,
}
