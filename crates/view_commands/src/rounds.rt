// The rounds of an iteration in one procedure.

ghost use Rattle.std.specs.Prelude.{◌≡◌, ◌+◌, ◌-◌, ◌^◌, ◌<◌, ◌++◌, IfErr, IfOk, IfSome, IsSome, OnOk, Some, length, true};
ghost use Rattle.std.specs.Thread.{IsSync};
ghost use Rattle.flow_runs.specs.Faults.{Delivers, OfProcedure, write_faults_in};
ghost use Rattle.view_commands.specs.Steps.{AreLinesWithSteps, AreShownSteps, IsTooLarge, has_few_points as is_few, tells_rounds};
ghost use Rattle.view_commands.specs.Views.{IsPage};
ghost use Rattle.view_words.specs.Commands.{title_queried};

use crate::views::{push_page, tables_and_answers};
use flow_graph::Graph;
use flow_runs::{Fault, push_text};
use flow_steps::{StepText, has_few_points};
use flow_team::Team;
use flow_views::View;
use json_texts::JsonChangesText;
use run_progress::Progress;
use source_lines::LinedText;
use std::alloc::Global;
use std::thread::Threads;
use text_pieces::{Pieces, Sink, Text};
use view_words::{Format, Options};

/// Whether a format tells rounds, which are of one procedure.
pub(crate) fn tells_rounds(format: Format) -> bool
    ensures { result ≡ tells_rounds format }
{
    match format {
        Format::Steps | Format::HtmlSteps => true,
        Format::Dot | Format::Calls | Format::Blocks | Format::Report => false,
        Format::Json | Format::JsonPaths | Format::JsonChanges => false,
        Format::Html | Format::HtmlPaths => false,
    }
}

// The procedure that is shown, where it has few enough points for its rounds.
fn procedure_shown(graph: &Graph<'_>, view: View) -> Result<u32, Fault>
    requires there { IfSome view.procedure (λ number. number < length graph.now.procedure_names) }
    requires one { IsSome view.procedure }
    ensures shown { IfOk result (λ procedure. view.procedure ≡ Some procedure) }
    ensures there { IfOk result (λ procedure. procedure < length graph.now.procedure_names) }
    ensures few { IfOk result (λ procedure. is_few graph.now procedure ≡ true) }
    ensures large { IfErr result (λ fault. (fault ≡ Fault.LargeProcedure) × IsTooLarge true graph.now view.procedure) }
{
    // Its contract tells that each procedure has a name.
    let _ = graph.points();
    let procedure = view.procedure.unwrap();
    if !has_few_points(graph, procedure) {
        return Err(Fault::LargeProcedure);
    }
    Ok(procedure)
}

/// Writes the rounds in the procedure that is shown, as lines of JSON.
pub(crate) fn push_steps<R: Threads + Sync, K: Sink>(
    team: &Team<'_, R, Progress>,
    alloc: Global,
    graph: &Graph<'_>,
    view: View,
    sink: &mut K,
) -> Result<(), Fault>
    requires threads { IsSync R.row }
    requires below { K.faults sink.old < 2 ^ 32 - 1 }
    requires there { IfSome view.procedure (λ number. number < length graph.now.procedure_names) }
    requires one { IsSome view.procedure }
    ensures delivers { Delivers (AreShownSteps graph.now view) (K.contents sink.old) (K.contents sink.new) result }
    ensures flushed { OnOk result (K.flushed sink.new ≡ true) }
    ensures fault { IfErr result (OfProcedure (λ _. ⊥) ⊥ ⊥ (IsTooLarge true graph.now view.procedure)) }
    ensures faults { K.faults sink.new ≡ K.faults sink.old + write_faults_in result }
{
    let procedure = procedure_shown(graph, view)?;
    let (tables, answers) = tables_and_answers(team, alloc, graph, view)?;
    let text = StepText::of(alloc, graph, &tables, &answers, view, procedure)?;
    push_text(alloc, &text, sink)
}

// Lines, and a text behind them.
#[derive(Clone, Copy)]
struct Behind<'a, A, B> {
    lines: &'a A,
    rest: &'a B,
}

impl<A: LinedText, B: Text> Text for Behind<'_, A, B> {
    ghost bytes = { λ text. A.first text.lines.now ++ A.others text.lines.now ++ B.bytes text.rest.now };

    fn write<K: Sink>(&self, out: &mut Pieces<'_, K>) {
        self.lines.write_first(out);
        self.lines.write_others(out);
        self.rest.write(out);
    }
}

/// Writes the page around lines of JSON with differences, and those of the rounds in the procedure that is shown.
pub(crate) fn push_html_steps<R: Threads + Sync, K: Sink>(
    team: &Team<'_, R, Progress>,
    alloc: Global,
    graph: &Graph<'_>,
    view: View,
    options: &Options,
    sink: &mut K,
) -> Result<(), Fault>
    requires threads { IsSync R.row }
    requires below { K.faults sink.old < 2 ^ 32 - 1 }
    requires there { IfSome view.procedure (λ number. number < length graph.now.procedure_names) }
    requires one { IsSome view.procedure }
    ensures delivers { Delivers (IsPage (title_queried options.now) (AreLinesWithSteps graph.now view)) (K.contents sink.old) (K.contents sink.new)
        result }
    ensures flushed { OnOk result (K.flushed sink.new ≡ true) }
    ensures fault { IfErr result (OfProcedure (λ _. ⊥) ⊥ ⊥ (IsTooLarge true graph.now view.procedure)) }
    ensures faults { K.faults sink.new ≡ K.faults sink.old + write_faults_in result }
{
    let procedure = procedure_shown(graph, view)?;
    let (tables, answers) = tables_and_answers(team, alloc, graph, view)?;
    let changes = JsonChangesText::of(alloc, graph, &tables, &answers, view)?;
    let steps = StepText::of(alloc, graph, &tables, &answers, view, procedure)?;
    let lines = Behind {
        lines: &changes,
        rest: &steps,
    };
    push_page(alloc, options, &lines, sink)
}
