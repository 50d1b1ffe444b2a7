// The report of a graph, which programs write.

ghost use Rattle.std.specs.Prelude.{◌≡◌, ◌+◌, ◌-◌, ◌^◌, ◌<◌, IfErr, OnOk, true};
ghost use Rattle.std.specs.Thread.{IsSync};
ghost use Rattle.flow_reports.specs.Reports.{IsReport, ListsSafely};
ghost use Rattle.report_answers.specs.code.Reported.{TellReport};
ghost use Rattle.flow_runs.specs.Faults.{Delivers, OfProgram, write_faults_in};

use crate::fault::Fault;
use crate::parts::push_text;
use flow_graph::Graph;
use flow_reports::ReportText;
use flow_team::{Gate, Team};
use report_answers::ReportAnswers;
use std::alloc::Global;
use std::thread::Threads;
use text_pieces::Sink;

// Pushes the report of a graph out of answers. They are not owned here, so that no way out drops them.
fn push_answers<K: Sink>(
    alloc: Global,
    graph: &Graph<'_>,
    answers: &ReportAnswers,
    sink: &mut K,
) -> Result<(), Fault>
    requires answers { TellReport graph.now answers.now }
    requires below { K.faults sink.old < 2 ^ 32 - 1 }
    ensures delivers { Delivers (λ out. IsReport graph.now out × ListsSafely graph.now out) (K.contents sink.old) (K.contents sink.new) result }
    ensures flushed { OnOk result (K.flushed sink.new ≡ true) }
    ensures fault { IfErr result (OfProgram (λ _. ⊥) ⊥ ⊥) }
    ensures faults { K.faults sink.new ≡ K.faults sink.old + write_faults_in result }
{
    let text = ReportText::of(alloc, graph, answers)?;
    push_text(alloc, &text, sink)
}

/// Pushes the report of a graph and nothing else, and flushes. What it tells is found by a team, with no tables; it is the same for every
/// team.
///
/// The condition: the sink's count of faults is below `u32::MAX`.
///
/// - `OutOfMemory`: memory was refused. Nothing was pushed.
/// - `Write`: a push or the flush was answered by a fault. A beginning of the report was pushed.
pub fn push_report<R: Threads + Sync, G: Gate, K: Sink>(
    team: &Team<'_, R, G>,
    alloc: Global,
    graph: &Graph<'_>,
    sink: &mut K,
) -> Result<(), Fault>
    requires threads { IsSync R.row }
    requires below { K.faults sink.old < 2 ^ 32 - 1 }
    ensures delivers { Delivers (λ out. IsReport graph.now out × ListsSafely graph.now out) (K.contents sink.old) (K.contents sink.new) result }
    ensures flushed { OnOk result (K.flushed sink.new ≡ true) }
    ensures fault { IfErr result (OfProgram (λ _. ⊥) ⊥ ⊥) }
    ensures faults { K.faults sink.new ≡ K.faults sink.old + write_faults_in result }
{
    let answers = ReportAnswers::of(team, alloc, graph)?;
    push_answers(alloc, graph, &answers, sink)
}
