ghost use Rattle.std.specs.Prelude.{◌≡◌};
ghost use Rattle.flow_views.specs.Views.{analysis_name, is_chosen};

use flow_graph::Analysis;

/// What an analysis is called, in texts and in words: `reach`, `live`, `avail` or `busy`.
pub fn analysis_name(analysis: Analysis) -> &'static [u8]
    ensures { result.now ≡ analysis_name analysis }
{
    match analysis {
        Analysis::Reach => b"reach",
        Analysis::Live => b"live",
        Analysis::Avail => b"avail",
        Analysis::Busy => b"busy",
    }
}

/// Which analyses' facts are shown.
#[derive(Debug, Clone, Copy, PartialEq, Eq)]
pub struct Chosen {
    /// Reaching definitions.
    pub reach: bool,
    /// Live variables.
    pub live: bool,
    /// Available expressions.
    pub avail: bool,
    /// Very busy expressions.
    pub busy: bool,
}

impl Chosen {
    /// Whether an analysis's facts are shown.
    pub(crate) fn has(self, analysis: Analysis) -> bool
        ensures { result ≡ is_chosen self analysis }
    {
        match analysis {
            Analysis::Reach => self.reach,
            Analysis::Live => self.live,
            Analysis::Avail => self.avail,
            Analysis::Busy => self.busy,
        }
    }
}

/// How a picture shows facts. Lines of JSON are the same for all of these.
#[derive(Debug, Clone, Copy, PartialEq, Eq)]
pub struct Look {
    /// Whether the dummy definitions are left out of its sets.
    pub hides_entry: bool,
    /// Whether facts stand behind a statement as well as before it.
    pub behind: bool,
    /// Whether facts stand in tooltips, and not in nodes.
    pub hovers: bool,
    /// Whether a legend tells what its marks mean.
    pub legend: bool,
    /// Whether what came and what went stands in place of sets.
    pub changes: bool,
}

/// What is shown of a program, and how.
#[derive(Debug, Clone, Copy, PartialEq, Eq)]
pub struct View {
    /// The facts at each point.
    pub facts: Chosen,
    /// The number of the one procedure that is shown; all where there is none.
    pub procedure: Option<u32>,
    /// How a picture shows them.
    pub look: Look,
}
