// What stands around all that is shown.

ghost use Rattle.std.specs.Prelude.{◌<◌, All, IfOk, IfSome, length};
ghost use Rattle.flow_graph.specs.Points.{point_count};
ghost use Rattle.flow_reports.specs.Reports.{IsKnowledge, Knowledge};
ghost use Rattle.report_answers.specs.code.Reported.{TellReport};
ghost use Rattle.flow_paths.specs.Doubts.{AreDoubts};
ghost use Rattle.flow_paths.specs.code.Arounds.{AreSetsOf};

use crate::OutOfMemory;
use crate::arounds::Arounds;
use crate::doubts::{Doubt, doubts_of, take_doubt};
use crate::shown::{points_shown, remarks_shown};
use flow_graph::Graph;
use flow_reasons::Reasons;
use flow_reports::Findings;
use flow_views::View;
use report_answers::ReportAnswers;
use std::alloc::Global;

/// What stands around the remarks that are shown, and the doubts of assignments.
#[derive(Drop)]
pub(crate) struct Surroundings {
    /// What stands around remarks.
    pub(crate) arounds: Arounds,
    /// The doubts.
    pub(crate) doubts: Vec<Doubt>,
}

/// What stands around all that is shown of a program. Fails only where memory runs out.
pub(crate) fn surroundings_of<'a>(
    alloc: Global,
    graph: &'a Graph<'a>,
    answers: &'a ReportAnswers,
    view: View,
) -> Result<Surroundings, OutOfMemory>
    requires answers { TellReport graph.now answers.now }
    requires procedure { IfSome view.procedure (λ procedure. procedure < length graph.now.procedure_names) }
    ensures sets { IfOk result (λ around. AreSetsOf graph.now view around.arounds) }
    ensures doubts { IfOk result (λ around. (known : Knowledge) → IsKnowledge graph.now known → AreDoubts graph.now known view around.doubts.items) }
    ensures points { IfOk result (λ around. All (λ doubt. doubt.point < point_count graph.now) around.doubts.items) }
{
    let mut found = Findings::of(alloc, graph, answers)?;
    let reasons = Reasons::of(alloc, graph)?;
    let shown = points_shown(graph, view.procedure);
    let remarks = remarks_shown(alloc, &found, shown)?;
    let arounds = Arounds::of(alloc, &reasons, graph, &remarks)?;
    let doubtful = take_doubt(alloc, &mut found)?;
    let doubts = doubts_of(alloc, &reasons, &found, &doubtful, shown)?;
    Ok(Surroundings { arounds, doubts })
}
