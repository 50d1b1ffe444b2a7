// Which points are doubtful.

ghost use Rattle.std.specs.Prelude.{◌≡◌, IfOk, length, map, not};
ghost use Rattle.flow_graph.specs.Limits.{HasFewPoints};
ghost use Rattle.tac_program.specs.declared.limits.Limits.TheVariants.{Large};
ghost use Rattle.flow_graph.specs.Points.{points, point_count};
ghost use Rattle.flow_graph.specs.declared.analysis.Analysis.TheVariants.{Live};
ghost use Rattle.tac_program.specs.Sound.{IsSound};
ghost use Rattle.flow_queries.specs.Queries.{flags_of};
ghost use Rattle.flow_reports.specs.code.Findings.{TellDoubtful};
ghost use Rattle.report_answers.specs.code.Reported.{TellChosen};
ghost use Rattle.report_answers.specs.code.Answered.{facts_in};

use crate::OutOfMemory;
use flow_graph::{Analysis, Graph};
use report_answers::ReportAnswers;
use std::alloc::Global;

/// For each point whether it has no valid path to the end of `main`.
fn endless_points(
    alloc: Global,
    graph: &Graph<'_>,
    answers: &ReportAnswers,
) -> Result<Vec<bool>, OutOfMemory>
    requires { length (flags_of answers.now.replies Live) ≡ point_count graph.now }
    ensures points { IfOk result
        (λ endless. endless.items ≡ map (λ point. not ((facts_in answers.now.replies Live).has_path point)) (points graph.now)) }
    ensures few { HasFewPoints Large graph.now }
    ensures sound { IsSound graph.now }
{
    let mut endless = Vec::new(alloc);
    for point in 0..graph.points() {
        endless.push(!answers.has_path(Analysis::Live, point))?;
    }
    Ok(endless)
}

/// For each point whether it is doubtful: whether some path leads from it to a point that has no valid path to the end of
/// `main`, as where a loop or a recursion may never end.
pub(crate) fn doubtful_points(
    alloc: Global,
    graph: &Graph<'_>,
    answers: &ReportAnswers,
) -> Result<Vec<bool>, OutOfMemory>
    requires { TellChosen answers.now.chosen graph.now answers.now }
    ensures points { IfOk result (λ doubtful. TellDoubtful graph.now doubtful.items) }
    ensures few { HasFewPoints Large graph.now }
    ensures sound { IsSound graph.now }
{
    let endless = endless_points(alloc, graph, answers)?;
    graph.leads_to(alloc, &endless)
}
