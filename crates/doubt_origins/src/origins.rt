// Where the doubt of each point comes from.

ghost use Rattle.std.specs.Prelude.{◌≡◌, IfOk};
ghost use Rattle.report_answers.specs.code.Reported.{TellReport};
ghost use Rattle.doubt_origins.specs.Origins.{AreOrigins, origins_in};

use crate::OutOfMemory;
use crate::endless::endless_points;
use crate::tracing::traced_origins;
use flow_graph::Graph;
use report_answers::ReportAnswers;
use std::alloc::Global;

/// For each point, where it is doubtful, a point to which some path leads from it and from which no valid path leads to the end of `main`.
///
/// The condition: these are answers to what a report asks on this graph's program. Fails only where memory runs out. It goes once over the
/// edges, backwards from the points without such a path, and takes eight bytes for each point beside the edges.
pub fn doubt_origins(
    alloc: Global,
    graph: &Graph<'_>,
    answers: &ReportAnswers,
) -> Result<Vec<Option<u32>>, OutOfMemory>
    requires { TellReport graph.now answers.now }
    ensures { IfOk result (λ origins. AreOrigins graph.now (origins_in origins.items)) }
{
    let endless = endless_points(alloc, graph, answers)?;
    traced_origins(alloc, graph, endless.as_slice())
}

/// What stands there for a point; none behind the last.
pub fn origin_at(origins: &[Option<u32>], point: u32) -> Option<u32>
    ensures { result ≡ origins_in origins.now point }
{
    if (point as usize) < origins.len() {
        origins[point as usize]
    } else {
        None
    }
}
