// Which points have no valid path to the end of `main`.

ghost use Rattle.std.specs.Prelude.{◌≡◌, IfOk, length, map, not};
ghost use Rattle.flow_graph.specs.Points.{points, point_count};
ghost use Rattle.flow_graph.specs.declared.analysis.Analysis.TheVariants.{Live};
ghost use Rattle.flow_queries.specs.Queries.{flags_of};
ghost use Rattle.report_answers.specs.code.Answered.{facts_in};
ghost use Rattle.report_answers.specs.code.Reported.{TellReport};
ghost use Rattle.doubt_origins.specs.code.Tracing.{TellEndless};

use crate::OutOfMemory;
use flow_graph::{Analysis, Graph};
use report_answers::ReportAnswers;
use std::alloc::Global;

// For each point whether it has no valid path there.
fn endless_flags(
    alloc: Global,
    graph: &Graph<'_>,
    answers: &ReportAnswers,
) -> Result<Vec<bool>, OutOfMemory>
    requires { length (flags_of answers.now.replies Live) ≡ point_count graph.now }
    ensures { IfOk result
        (λ endless. endless.items ≡ map (λ point. not ((facts_in answers.now.replies Live).has_path point)) (points graph.now)) }
{
    let mut endless = Vec::with_capacity(alloc, graph.points() as usize)?;
    for point in 0..graph.points() {
        endless.push(!answers.has_path(Analysis::Live, point))?;
    }
    Ok(endless)
}

/// For each point whether it has no valid path to the end of `main`.
pub(crate) fn endless_points(
    alloc: Global,
    graph: &Graph<'_>,
    answers: &ReportAnswers,
) -> Result<Vec<bool>, OutOfMemory>
    requires { TellReport graph.now answers.now }
    ensures { IfOk result (λ endless. TellEndless graph.now endless.items) }
{
    let endless = endless_flags(alloc, graph, answers)?;
    Ok(endless)
}
