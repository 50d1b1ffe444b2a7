// What is told of a program, and how.

ghost use Rattle.std.specs.Prelude.{◌≡◌, ◌<◌};
ghost use Rattle.std.specs.List.{list_any};
ghost use Rattle.flow_graph.specs.Points.{point_count};
ghost use Rattle.flow_lints.specs.Lints.{IsLinted};
ghost use Rattle.lint_texts.specs.LintTexts.{is_in, is_told};

use crate::kinds::Kinds;
use flow_graph::Graph;
use flow_lints::{Linted, PlacedLint};
use lint_styles::Style;

/// What is told of a program, and how.
#[derive(Debug, Clone, Copy, PartialEq, Eq)]
pub struct Telling {
    /// Which kinds of lints.
    pub kinds: Kinds,
    /// The one procedure of whose points they are told; without it all are.
    pub procedure: Option<u32>,
    /// Whether the way is told by which a variable is not set.
    pub why: bool,
    /// How they are shown.
    pub style: Style,
}

// Whether a point lies in this procedure.
fn is_in(graph: &Graph<'_>, procedure: Option<u32>, point: u32) -> bool
    requires { point < point_count graph.now }
    ensures { result ≡ is_in graph.now procedure point }
{
    match procedure {
        Some(procedure) => graph.place(point).procedure == procedure,
        None => true,
    }
}

impl Telling {
    /// Whether a lint of a program is told.
    ///
    /// The condition: the program has its point.
    pub fn tells(self, graph: &Graph<'_>, placed: PlacedLint) -> bool
        requires { placed.point < point_count graph.now }
        ensures { result ≡ is_told self graph.now placed }
    {
        self.kinds.wants(placed.lint) && is_in(graph, self.procedure, placed.point)
    }

    /// Whether one of a program's lints is told.
    ///
    /// The condition: the lints are the program's.
    pub fn tells_any(self, graph: &Graph<'_>, linted: &Linted) -> bool
        requires { IsLinted graph.now linted.now }
        ensures { result ≡ list_any (is_told self graph.now) linted.now.lints.items }
    {
        let lints = linted.lints.as_slice();
        for placed in lints {
            if self.tells(graph, *placed) {
                return true;
            }
        }
        false
    }
}
