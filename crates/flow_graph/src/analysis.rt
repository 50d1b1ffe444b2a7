ghost use Rattle.std.specs.Prelude.{◌≡◌, ◌<◌, ◌↔◌, Contains, Some, slice_get};
ghost use Rattle.std.specs.List.{filter};
ghost use Rattle.flow_graph.specs.Analyses.{is_backward, is_must};
ghost use Rattle.flow_graph.specs.AnalysisNumbers.{analysis_number, goes};
ghost use Rattle.flow_graph.specs.Directions.{goes_backward, is_intersection};

/// Which way an analysis goes (Aho et al. 9.2): along the edges from the beginning of `main`, or against them from its end.
#[derive(Debug, Clone, Copy, PartialEq, Eq)]
pub enum Direction {
    Forward,
    Backward,
}

/// How the values of several paths make one (Aho et al. 9.2): what some path has, a may analysis, or what every path has, a
/// must analysis.
#[derive(Debug, Clone, Copy, PartialEq, Eq)]
pub enum Join {
    Union,
    Intersection,
}

/// The four analyses (Aho, Lam, Sethi, Ullman, 2nd edition, 9.2 and 9.5).
#[derive(Debug, Clone, Copy, PartialEq, Eq)]
pub enum Analysis {
    /// Reaching definitions: which definitions may have set a variable last. Forwards, some path.
    Reach,
    /// Live variables: which variables may be read before they are written. Backwards, some path.
    Live,
    /// Available expressions: which expressions have been evaluated, with no operand written since. Forwards, every path.
    Avail,
    /// Very busy (anticipated) expressions: which expressions will be evaluated before an operand is written. Backwards,
    /// every path.
    Busy,
}

impl Direction {
    /// The analyses that go this way, in the order of their numbers.
    pub fn analyses(self) -> &'static [Analysis]
        ensures list { result.now ≡ filter (goes (goes_backward self)) Analysis.ALL }
        ensures each { (analysis : Analysis) → Contains result.now analysis ↔ (is_backward analysis ≡ goes_backward self) }
    {
        match self {
            Direction::Forward => &[Analysis::Reach, Analysis::Avail],
            Direction::Backward => &[Analysis::Live, Analysis::Busy],
        }
    }
}

impl Analysis {
    /// All analyses, in the order of their numbers.
    pub const ALL: [Analysis; 4] = [
        Analysis::Reach,
        Analysis::Live,
        Analysis::Avail,
        Analysis::Busy,
    ];

    /// The analysis's place in [`ALL`](Analysis::ALL).
    pub fn number(self) -> usize
        ensures number { result ≡ analysis_number self }
        ensures place { slice_get Self.ALL result ≡ Some self }
        ensures below { result < 4 }
    {
        self as usize
    }

    /// Which way the analysis goes.
    pub fn direction(self) -> Direction
        ensures { goes_backward result ≡ is_backward self }
    {
        match self {
            Analysis::Reach => Direction::Forward,
            Analysis::Live => Direction::Backward,
            Analysis::Avail => Direction::Forward,
            Analysis::Busy => Direction::Backward,
        }
    }

    /// How the analysis joins the values of paths.
    pub fn join(self) -> Join
        ensures { is_intersection result ≡ is_must self }
    {
        match self {
            Analysis::Reach => Join::Union,
            Analysis::Live => Join::Union,
            Analysis::Avail => Join::Intersection,
            Analysis::Busy => Join::Intersection,
        }
    }
}
