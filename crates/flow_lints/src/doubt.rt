// Which points are doubtful on executions.

ghost use Rattle.std.specs.Prelude.{◌≡◌, ◌&&◌, ◌<◌, IfOk, map, not};
ghost use Rattle.flow_graph.specs.Points.{point_count, points};
ghost use Rattle.flow_lints.specs.code.Lints.{TellDoubtOnExecutions};
ghost use Rattle.flow_reports.specs.code.Findings.{AreFindings, knowledge_of};

use crate::OutOfMemory;
use crate::leads::leads_among;
use flow_graph::Analysis;
use flow_reports::Findings;
use std::alloc::Global;

// For each point whether it is reached.
fn reached_points(alloc: Global, found: &Findings<'_>) -> Result<Vec<bool>, OutOfMemory>
    requires { AreFindings found.now }
    ensures { IfOk result (λ reached. reached.items ≡ map (knowledge_of found.now).reach.has_path (points found.now.graph.now)) }
{
    let mut reached = Vec::new(alloc);
    for point in 0..found.graph.points() {
        reached.push(found.is_reached(point))?;
    }
    Ok(reached)
}

// Whether a point is reached and no valid path leads from it to the end of `main`.
pub(crate) fn is_endless(found: &Findings<'_>, point: u32) -> bool
    requires found { AreFindings found.now }
    requires point { point < point_count found.now.graph.now }
    ensures { result ≡ ((knowledge_of found.now).reach.has_path point && not ((knowledge_of found.now).live.has_path point)) }
{
    found.is_reached(point) && !found.answers.has_path(Analysis::Live, point)
}

// For each point whether it is reached and cannot finish.
fn endless_points(alloc: Global, found: &Findings<'_>) -> Result<Vec<bool>, OutOfMemory>
    requires { AreFindings found.now }
    ensures { IfOk result (λ endless. endless.items
        ≡ map (λ point. (knowledge_of found.now).reach.has_path point && not ((knowledge_of found.now).live.has_path point))
        (points found.now.graph.now)) }
{
    let mut endless = Vec::new(alloc);
    for point in 0..found.graph.points() {
        endless.push(is_endless(found, point))?;
    }
    Ok(endless)
}

/// For each point whether it is doubtful on executions.
pub(crate) fn doubt_on_executions(
    alloc: Global,
    found: &Findings<'_>,
) -> Result<Vec<bool>, OutOfMemory>
    requires { AreFindings found.now }
    ensures { IfOk result (λ flags. TellDoubtOnExecutions found.now.graph.now flags.items) }
{
    let reached = reached_points(alloc, found)?;
    let endless = endless_points(alloc, found)?;
    leads_among(alloc, found.graph, &reached, &endless)
}
