// What is written of a program.

ghost use Rattle.std.specs.Prelude.{◌≡◌, ◌+◌, ◌++◌, ◌-◌, ◌^◌, ◌<◌, None, Some, IfOk, IfErr, IfSome, IsSome, OnOk, MatchOption, false, length};
ghost use Rattle.std.specs.Prelude.{option_map, true};
ghost use Rattle.std.specs.Thread.{IsSync};
ghost use Rattle.block_dots.specs.BlockDots.{IsBlockDot};
ghost use Rattle.call_dots.specs.CallDots.{IsCallDot};
ghost use Rattle.flow_graph.specs.Limits.{HasFewBits, HasFewPoints};
ghost use Rattle.flow_paths.specs.Paths.{IsJsonWithPaths};
ghost use Rattle.flow_paths.specs.Pictures.{IsDotWithPath, LacksUse};
ghost use Rattle.flow_runs.specs.Faults.{Delivers, OfProcedure, OfProgram, write_faults_in};
ghost use Rattle.flow_runs.specs.Runs.{IsOverLimit};
ghost use Rattle.report_answers.specs.code.Reported.{TellReport};
ghost use Rattle.flow_views.specs.Dots.{IsDot};
ghost use Rattle.flow_views.specs.Json.{IsJson, program_line};
ghost use Rattle.flow_views.specs.ViewTables.{AreViewTables};
ghost use Rattle.json_parts.specs.JsonParts.{IsJsonPart};
ghost use Rattle.json_texts.specs.Changes.{IsJsonChanges, named_program_line};
ghost use Rattle.flow_parts.specs.Parts.{IsPart};
ghost use Rattle.page_texts.specs.Pages.{page_of};
ghost use Rattle.source_lines.specs.SourceLines.{IsSourced, source_lines};
ghost use Rattle.view_commands.specs.Steps.{IsTooLarge, tells_rounds};
ghost use Rattle.view_commands.specs.Views.{HasLargeProcedure, HasProcedure, IsJsonOrPart, IsPage, IsPicture, IsReportOrPart, IsShownBy, IsText};
ghost use Rattle.view_commands.specs.Views.{LacksNamed, LacksProcedure};
ghost use Rattle.view_commands.specs.Views.{LacksRemark, ShowsProcedure, kept_for, request_of, source_in, view_for};
ghost use Rattle.view_words.specs.Commands.{because_queried, name_queried, share_queried, source_queried, title_queried};

use crate::rounds::{push_html_steps, push_steps, tells_rounds};
use crate::sizes::{calls_words, is_large, size_words};
use block_dots::BlockDotText;
use call_dots::CallDotText;
use dot_texts::DotText;
use flow_graph::Graph;
use flow_parts::{PartText, digest, part_bits};
use flow_paths::{JsonPathsText, PathDotText};
use flow_runs::{Fault, OutOfMemory, Output, graph_of, push_report, push_text};
use flow_team::Team;
use flow_views::{View, ViewTables, shown_points};
use json_parts::JsonPartText;
use json_texts::{JsonChangesText, JsonText};
use page_texts::PageText;
use part_texts::Share;
use report_answers::ReportAnswers;
use run_progress::Progress;
use source_lines::{LinedText, SourcedText};
use std::alloc::Global;
use std::thread::Threads;
use tac_program::{Limits, Program};
use text_pieces::{Sink, Text};
use view_words::{Format, Options};

// The number of the procedure of this name.
fn procedure_named(program: &Program, name: &[u8]) -> Option<u32>
    ensures { MatchOption result (LacksProcedure false (Some name.now) program.now) (HasProcedure program.now name.now) }
{
    for number in 0..program.procs().len() as u32 {
        if program.procedure(number) == name {
            return Some(number);
        }
    }
    None
}

// What the options ask for of this program.
fn view_of(program: &Program, options: &Options) -> Result<View, Fault>
    ensures view { IfOk result (λ view. view ≡ view_for (request_of options.now) view.procedure) }
    ensures procedure { IfOk result (λ view. ShowsProcedure program.now (name_queried options.now) view.procedure) }
    ensures there { IfOk result (λ view. IfSome view.procedure (λ number. number < length program.now.procedure_names)) }
    ensures one { IfOk result (λ view. tells_rounds options.now.format ≡ true → IsSome view.procedure) }
    ensures lacks { IfErr result (λ fault. (fault ≡ Fault.NoProcedure)
        × LacksProcedure (tells_rounds options.now.format) (name_queried options.now) program.now) }
{
    let facts = options.facts;
    let look = options.asked.look;
    let Some(name) = &options.asked.procedure else {
        if tells_rounds(options.format) {
            return Err(Fault::NoProcedure);
        }
        return Ok(View {
            facts,
            procedure: None,
            look,
        });
    };
    match procedure_named(program, name.as_bytes()) {
        Some(number) => Ok(View {
            facts,
            procedure: Some(number),
            look,
        }),
        None => Err(Fault::NoProcedure),
    }
}

// What texts of a graph are made of: the tables of what is shown, and the answers to what a report asks.
pub(crate) fn tables_and_answers<R: Threads + Sync>(
    team: &Team<'_, R, Progress>,
    alloc: Global,
    graph: &Graph<'_>,
    view: View,
) -> Result<(ViewTables, ReportAnswers), OutOfMemory>
    requires threads { IsSync R.row }
    requires there { IfSome view.procedure (λ number. number < length graph.now.procedure_names) }
    ensures { IfOk result (λ made. AreViewTables graph.now view made.0 × TellReport graph.now made.1) }
{
    let tables = ViewTables::of(team, alloc, graph, view)?;
    let answers = ReportAnswers::of(team, alloc, graph)?;
    Ok((tables, answers))
}

// Writes the graph for Graphviz.
fn push_dot<R: Threads + Sync, K: Sink>(
    team: &Team<'_, R, Progress>,
    alloc: Global,
    graph: &Graph<'_>,
    view: View,
    sink: &mut K,
) -> Result<(), Fault>
    requires threads { IsSync R.row }
    requires below { K.faults sink.old < 2 ^ 32 - 1 }
    requires there { IfSome view.procedure (λ number. number < length graph.now.procedure_names) }
    ensures delivers { Delivers (λ out. IsDot graph.now view out) (K.contents sink.old) (K.contents sink.new) result }
    ensures flushed { OnOk result (K.flushed sink.new ≡ true) }
    ensures fault { IfErr result (OfProgram (λ _. ⊥) ⊥ ⊥) }
    ensures faults { K.faults sink.new ≡ K.faults sink.old + write_faults_in result }
{
    let (tables, answers) = tables_and_answers(team, alloc, graph, view)?;
    let text = DotText::of(alloc, graph, &tables, &answers, view)?;
    push_text(alloc, &text, sink)
}

// Writes it with the path of the use that a text names.
fn push_path_dot<R: Threads + Sync, K: Sink>(
    team: &Team<'_, R, Progress>,
    alloc: Global,
    graph: &Graph<'_>,
    view: View,
    place: &[u8],
    sink: &mut K,
) -> Result<(), Fault>
    requires threads { IsSync R.row }
    requires below { K.faults sink.old < 2 ^ 32 - 1 }
    requires there { IfSome view.procedure (λ number. number < length graph.now.procedure_names) }
    ensures delivers { Delivers (λ out. IsDotWithPath graph.now view place.now out) (K.contents sink.old) (K.contents sink.new) result }
    ensures flushed { OnOk result (K.flushed sink.new ≡ true) }
    ensures fault { IfErr result (OfProgram (λ _. ⊥) ⊥ (LacksUse graph.now view place.now)) }
    ensures faults { K.faults sink.new ≡ K.faults sink.old + write_faults_in result }
{
    let (tables, answers) = tables_and_answers(team, alloc, graph, view)?;
    let Some(text) = PathDotText::of(alloc, graph, &tables, &answers, view, place)? else {
        return Err(Fault::NoRemark);
    };
    push_text(alloc, &text, sink)
}

// Tells how many points a picture has.
fn tell_size(alloc: Global, gate: &Progress, graph: &Graph<'_>, view: View)
    requires { IfSome view.procedure (λ number. number < length graph.now.procedure_names) }
{
    // Its contract tells that each procedure has a name.
    let _ = graph.points();
    let points = shown_points(graph, view.procedure);
    let count = points.end.saturating_sub(points.first);
    if !is_large(count) {
        return;
    }
    if let Ok(line) = size_words(alloc, count) {
        gate.tell(&line);
    }
}

// Writes it with the path of a use, where one is asked for.
fn push_picture<R: Threads + Sync, K: Sink>(
    team: &Team<'_, R, Progress>,
    alloc: Global,
    graph: &Graph<'_>,
    view: View,
    options: &Options,
    sink: &mut K,
) -> Result<(), Fault>
    requires threads { IsSync R.row }
    requires below { K.faults sink.old < 2 ^ 32 - 1 }
    requires there { IfSome view.procedure (λ number. number < length graph.now.procedure_names) }
    ensures delivers { Delivers (IsPicture (because_queried options.now) graph.now view) (K.contents sink.old) (K.contents sink.new) result }
    ensures flushed { OnOk result (K.flushed sink.new ≡ true) }
    ensures fault { IfErr result (OfProgram (λ _. ⊥) ⊥ (LacksNamed (because_queried options.now) graph.now view)) }
    ensures faults { K.faults sink.new ≡ K.faults sink.old + write_faults_in result }
{
    tell_size(alloc, team.gate, graph, view);
    match &options.asked.because {
        Some(place) => push_path_dot(team, alloc, graph, view, place.as_bytes(), sink),
        None => push_dot(team, alloc, graph, view, sink),
    }
}

// Writes the graph of blocks for Graphviz.
fn push_blocks<R: Threads + Sync, K: Sink>(
    team: &Team<'_, R, Progress>,
    alloc: Global,
    graph: &Graph<'_>,
    view: View,
    sink: &mut K,
) -> Result<(), Fault>
    requires threads { IsSync R.row }
    requires below { K.faults sink.old < 2 ^ 32 - 1 }
    requires there { IfSome view.procedure (λ number. number < length graph.now.procedure_names) }
    ensures delivers { Delivers (λ out. IsBlockDot graph.now view out) (K.contents sink.old) (K.contents sink.new) result }
    ensures flushed { OnOk result (K.flushed sink.new ≡ true) }
    ensures fault { IfErr result (OfProgram (λ _. ⊥) ⊥ ⊥) }
    ensures faults { K.faults sink.new ≡ K.faults sink.old + write_faults_in result }
{
    tell_size(alloc, team.gate, graph, view);
    let (tables, answers) = tables_and_answers(team, alloc, graph, view)?;
    let text = BlockDotText::of(alloc, graph, &tables, &answers, view)?;
    push_text(alloc, &text, sink)
}

// Tells how many procedures a call graph has.
fn tell_calls(alloc: Global, gate: &Progress, graph: &Graph<'_>) {
    let count = graph.program().procs().len() as u32;
    if !is_large(count) {
        return;
    }
    if let Ok(line) = calls_words(alloc, count) {
        gate.tell(&line);
    }
}

// Writes the call graph for Graphviz, with a legend or without.
fn push_calls<R: Threads + Sync, K: Sink>(
    team: &Team<'_, R, Progress>,
    alloc: Global,
    graph: &Graph<'_>,
    legend: bool,
    sink: &mut K,
) -> Result<(), Fault>
    requires threads { IsSync R.row }
    requires below { K.faults sink.old < 2 ^ 32 - 1 }
    ensures delivers { Delivers (λ out. IsCallDot graph.now legend out) (K.contents sink.old) (K.contents sink.new) result }
    ensures flushed { OnOk result (K.flushed sink.new ≡ true) }
    ensures fault { IfErr result (OfProgram (λ _. ⊥) ⊥ ⊥) }
    ensures faults { K.faults sink.new ≡ K.faults sink.old + write_faults_in result }
{
    tell_calls(alloc, team.gate, graph);
    let answers = ReportAnswers::of(team, alloc, graph)?;
    let text = CallDotText::of(alloc, graph, &answers, legend)?;
    push_text(alloc, &text, sink)
}

/// What is shown of a program, its digest where a part names it, and the source whose lines are told.
#[derive(Clone, Copy)]
struct Shown<'a> {
    view: View,
    digest: &'a [u8],
    source: &'a [u8],
}

// Writes lines with those of the source behind the first one.
fn push_lines<T: LinedText, K: Sink>(
    alloc: Global,
    source: &[u8],
    lines: &T,
    sink: &mut K,
) -> Result<(), Fault>
    requires below { K.faults sink.old < 2 ^ 32 - 1 }
    ensures delivers { Delivers (λ out. out ≡ T.first lines.now ++ source_lines source.now ++ T.others lines.now) (K.contents sink.old)
        (K.contents sink.new) result }
    ensures flushed { OnOk result (K.flushed sink.new ≡ true) }
    ensures fault { IfErr result (OfProgram (λ _. ⊥) ⊥ ⊥) }
    ensures faults { K.faults sink.new ≡ K.faults sink.old + write_faults_in result }
{
    let text = SourcedText { source, lines };
    push_text(alloc, &text, sink)
}

// Writes the lines of JSON.
fn push_json<R: Threads + Sync, K: Sink>(
    team: &Team<'_, R, Progress>,
    alloc: Global,
    graph: &Graph<'_>,
    shown: Shown<'_>,
    sink: &mut K,
) -> Result<(), Fault>
    requires threads { IsSync R.row }
    requires below { K.faults sink.old < 2 ^ 32 - 1 }
    requires there { IfSome shown.view.procedure (λ number. number < length graph.now.procedure_names) }
    ensures delivers { Delivers (IsSourced shown.entry.source.now (program_line graph.now) (IsJson graph.now shown.entry.view))
        (K.contents sink.old) (K.contents sink.new) result }
    ensures flushed { OnOk result (K.flushed sink.new ≡ true) }
    ensures fault { IfErr result (OfProgram (λ _. ⊥) ⊥ ⊥) }
    ensures faults { K.faults sink.new ≡ K.faults sink.old + write_faults_in result }
{
    let (tables, answers) = tables_and_answers(team, alloc, graph, shown.view)?;
    let lines = JsonText::of(alloc, graph, &tables, &answers, shown.view)?;
    push_lines(alloc, shown.source, &lines, sink)
}

// Writes the lines of JSON with paths.
fn push_json_paths<R: Threads + Sync, K: Sink>(
    team: &Team<'_, R, Progress>,
    alloc: Global,
    graph: &Graph<'_>,
    shown: Shown<'_>,
    sink: &mut K,
) -> Result<(), Fault>
    requires threads { IsSync R.row }
    requires below { K.faults sink.old < 2 ^ 32 - 1 }
    requires there { IfSome shown.view.procedure (λ number. number < length graph.now.procedure_names) }
    ensures delivers { Delivers (IsSourced shown.entry.source.now (program_line graph.now) (IsJsonWithPaths false graph.now shown.entry.view))
        (K.contents sink.old) (K.contents sink.new) result }
    ensures flushed { OnOk result (K.flushed sink.new ≡ true) }
    ensures fault { IfErr result (OfProgram (λ _. ⊥) ⊥ ⊥) }
    ensures faults { K.faults sink.new ≡ K.faults sink.old + write_faults_in result }
{
    let (tables, answers) = tables_and_answers(team, alloc, graph, shown.view)?;
    let lines = JsonPathsText::of(alloc, graph, &tables, &answers, shown.view, false)?;
    push_lines(alloc, shown.source, &lines, sink)
}

// Writes the lines of JSON with what changes from point to point.
fn push_json_changes<R: Threads + Sync, K: Sink>(
    team: &Team<'_, R, Progress>,
    alloc: Global,
    graph: &Graph<'_>,
    shown: Shown<'_>,
    sink: &mut K,
) -> Result<(), Fault>
    requires threads { IsSync R.row }
    requires below { K.faults sink.old < 2 ^ 32 - 1 }
    requires there { IfSome shown.view.procedure (λ number. number < length graph.now.procedure_names) }
    ensures delivers { Delivers (IsSourced shown.entry.source.now (named_program_line graph.now) (IsJsonChanges graph.now shown.entry.view))
        (K.contents sink.old) (K.contents sink.new) result }
    ensures flushed { OnOk result (K.flushed sink.new ≡ true) }
    ensures fault { IfErr result (OfProgram (λ _. ⊥) ⊥ ⊥) }
    ensures faults { K.faults sink.new ≡ K.faults sink.old + write_faults_in result }
{
    let (tables, answers) = tables_and_answers(team, alloc, graph, shown.view)?;
    let lines = JsonChangesText::of(alloc, graph, &tables, &answers, shown.view)?;
    push_lines(alloc, shown.source, &lines, sink)
}

// The title that the options name.
fn title_of(options: &Options) -> Option<&[u8]>
    ensures { option_map (λ title. title.now) result ≡ title_queried options.now }
{
    match &options.asked.title {
        Some(title) => Some(title.as_bytes()),
        None => None,
    }
}

// Writes the page around lines.
pub(crate) fn push_page<T: Text, K: Sink>(
    alloc: Global,
    options: &Options,
    lines: &T,
    sink: &mut K,
) -> Result<(), Fault>
    requires below { K.faults sink.old < 2 ^ 32 - 1 }
    ensures delivers { Delivers (λ out. out ≡ page_of (title_queried options.now) (T.bytes lines.now)) (K.contents sink.old) (K.contents sink.new)
        result }
    ensures flushed { OnOk result (K.flushed sink.new ≡ true) }
    ensures fault { IfErr result (OfProgram (λ _. ⊥) ⊥ ⊥) }
    ensures faults { K.faults sink.new ≡ K.faults sink.old + write_faults_in result }
{
    let page = PageText::of(alloc, title_of(options), lines)?;
    push_text(alloc, &page, sink)
}

// Writes the page around lines with those of the source.
fn push_sourced_page<T: LinedText, K: Sink>(
    alloc: Global,
    options: &Options,
    source: &[u8],
    lines: &T,
    sink: &mut K,
) -> Result<(), Fault>
    requires below { K.faults sink.old < 2 ^ 32 - 1 }
    ensures delivers { Delivers (λ out. out
        ≡ page_of (title_queried options.now) (T.first lines.now ++ source_lines source.now ++ T.others lines.now)) (K.contents sink.old)
        (K.contents sink.new) result }
    ensures flushed { OnOk result (K.flushed sink.new ≡ true) }
    ensures fault { IfErr result (OfProgram (λ _. ⊥) ⊥ ⊥) }
    ensures faults { K.faults sink.new ≡ K.faults sink.old + write_faults_in result }
{
    let text = SourcedText { source, lines };
    push_page(alloc, options, &text, sink)
}

// Writes the page around lines of JSON with differences.
fn push_html<R: Threads + Sync, K: Sink>(
    team: &Team<'_, R, Progress>,
    alloc: Global,
    graph: &Graph<'_>,
    shown: Shown<'_>,
    options: &Options,
    sink: &mut K,
) -> Result<(), Fault>
    requires threads { IsSync R.row }
    requires below { K.faults sink.old < 2 ^ 32 - 1 }
    requires there { IfSome shown.view.procedure (λ number. number < length graph.now.procedure_names) }
    ensures delivers { Delivers (IsPage (title_queried options.now)
        (IsSourced shown.entry.source.now (named_program_line graph.now) (IsJsonChanges graph.now shown.entry.view)))
        (K.contents sink.old) (K.contents sink.new) result }
    ensures flushed { OnOk result (K.flushed sink.new ≡ true) }
    ensures fault { IfErr result (OfProgram (λ _. ⊥) ⊥ ⊥) }
    ensures faults { K.faults sink.new ≡ K.faults sink.old + write_faults_in result }
{
    let (tables, answers) = tables_and_answers(team, alloc, graph, shown.view)?;
    let lines = JsonChangesText::of(alloc, graph, &tables, &answers, shown.view)?;
    push_sourced_page(alloc, options, shown.source, &lines, sink)
}

// Writes the page around lines with paths.
fn push_html_paths<R: Threads + Sync, K: Sink>(
    team: &Team<'_, R, Progress>,
    alloc: Global,
    graph: &Graph<'_>,
    shown: Shown<'_>,
    options: &Options,
    sink: &mut K,
) -> Result<(), Fault>
    requires threads { IsSync R.row }
    requires below { K.faults sink.old < 2 ^ 32 - 1 }
    requires there { IfSome shown.view.procedure (λ number. number < length graph.now.procedure_names) }
    ensures delivers { Delivers (IsPage (title_queried options.now)
        (IsSourced shown.entry.source.now (named_program_line graph.now) (IsJsonWithPaths true graph.now shown.entry.view)))
        (K.contents sink.old) (K.contents sink.new) result }
    ensures flushed { OnOk result (K.flushed sink.new ≡ true) }
    ensures fault { IfErr result (OfProgram (λ _. ⊥) ⊥ ⊥) }
    ensures faults { K.faults sink.new ≡ K.faults sink.old + write_faults_in result }
{
    let (tables, answers) = tables_and_answers(team, alloc, graph, shown.view)?;
    let lines = JsonPathsText::of(alloc, graph, &tables, &answers, shown.view, true)?;
    push_sourced_page(alloc, options, shown.source, &lines, sink)
}

// Writes a part of the report.
fn push_part<R: Threads + Sync, K: Sink>(
    team: &Team<'_, R, Progress>,
    alloc: Global,
    graph: &Graph<'_>,
    digest: &[u8],
    share: Share,
    sink: &mut K,
) -> Result<(), Fault>
    requires threads { IsSync R.row }
    requires below { K.faults sink.old < 2 ^ 32 - 1 }
    ensures delivers { Delivers (IsPart graph.now digest.now share.count share.part) (K.contents sink.old) (K.contents sink.new) result }
    ensures flushed { OnOk result (K.flushed sink.new ≡ true) }
    ensures fault { IfErr result (OfProgram (λ _. ⊥) ⊥ ⊥) }
    ensures faults { K.faults sink.new ≡ K.faults sink.old + write_faults_in result }
{
    let chosen = part_bits(graph, share.count, share.part);
    let answers = ReportAnswers::of_chosen(team, alloc, graph, chosen)?;
    let text = PartText::of(alloc, graph, &answers, digest, share.count, share.part)?;
    push_text(alloc, &text, sink)
}

// Writes the report, or the part of it that is asked for.
fn push_report_or_part<R: Threads + Sync, K: Sink>(
    team: &Team<'_, R, Progress>,
    alloc: Global,
    graph: &Graph<'_>,
    digest: &[u8],
    options: &Options,
    sink: &mut K,
) -> Result<(), Fault>
    requires threads { IsSync R.row }
    requires below { K.faults sink.old < 2 ^ 32 - 1 }
    ensures delivers { Delivers (IsReportOrPart (share_queried options.now) digest.now graph.now) (K.contents sink.old) (K.contents sink.new) result }
    ensures flushed { OnOk result (K.flushed sink.new ≡ true) }
    ensures fault { IfErr result (OfProgram (λ _. ⊥) ⊥ ⊥) }
    ensures faults { K.faults sink.new ≡ K.faults sink.old + write_faults_in result }
{
    match options.asked.share {
        Some(share) => push_part(team, alloc, graph, digest, share, sink),
        None => push_report(team, alloc, graph, sink),
    }
}

// Writes a part of the lines of JSON.
fn push_json_part<R: Threads + Sync, K: Sink>(
    team: &Team<'_, R, Progress>,
    alloc: Global,
    graph: &Graph<'_>,
    digest: &[u8],
    share: Share,
    sink: &mut K,
) -> Result<(), Fault>
    requires threads { IsSync R.row }
    requires below { K.faults sink.old < 2 ^ 32 - 1 }
    ensures delivers { Delivers (IsJsonPart graph.now digest.now share.count share.part) (K.contents sink.old) (K.contents sink.new) result }
    ensures flushed { OnOk result (K.flushed sink.new ≡ true) }
    ensures fault { IfErr result (OfProgram (λ _. ⊥) ⊥ ⊥) }
    ensures faults { K.faults sink.new ≡ K.faults sink.old + write_faults_in result }
{
    let chosen = part_bits(graph, share.count, share.part);
    let answers = ReportAnswers::of_chosen(team, alloc, graph, chosen)?;
    let text = JsonPartText::of(alloc, graph, &answers, digest, share)?;
    push_text(alloc, &text, sink)
}

// Writes the lines of JSON, or the part of them that is asked for.
fn push_json_or_part<R: Threads + Sync, K: Sink>(
    team: &Team<'_, R, Progress>,
    alloc: Global,
    graph: &Graph<'_>,
    shown: Shown<'_>,
    options: &Options,
    sink: &mut K,
) -> Result<(), Fault>
    requires threads { IsSync R.row }
    requires below { K.faults sink.old < 2 ^ 32 - 1 }
    requires there { IfSome shown.view.procedure (λ number. number < length graph.now.procedure_names) }
    ensures delivers { Delivers (IsJsonOrPart (share_queried options.now) shown.entry.digest.now shown.entry.source.now graph.now shown.entry.view)
        (K.contents sink.old) (K.contents sink.new) result }
    ensures flushed { OnOk result (K.flushed sink.new ≡ true) }
    ensures fault { IfErr result (OfProgram (λ _. ⊥) ⊥ ⊥) }
    ensures faults { K.faults sink.new ≡ K.faults sink.old + write_faults_in result }
{
    match options.asked.share {
        Some(share) => push_json_part(team, alloc, graph, shown.digest, share, sink),
        None => push_json(team, alloc, graph, shown, sink),
    }
}

// Writes what the options ask for of a graph. A report wants no tables.
fn view_of_graph<R: Threads + Sync, K: Sink>(
    team: &Team<'_, R, Progress>,
    alloc: Global,
    graph: &Graph<'_>,
    shown: Shown<'_>,
    options: &Options,
    sink: &mut K,
) -> Result<(), Fault>
    requires threads { IsSync R.row }
    requires below { K.faults sink.old < 2 ^ 32 - 1 }
    requires there { IfSome shown.view.procedure (λ number. number < length graph.now.procedure_names) }
    requires one { tells_rounds options.now.format ≡ true → IsSome shown.view.procedure }
    ensures delivers { Delivers (IsText options.now.format (request_of options.now) shown.entry.digest.now shown.entry.source.now graph.now
        shown.entry.view) (K.contents sink.old) (K.contents sink.new) result }
    ensures flushed { OnOk result (K.flushed sink.new ≡ true) }
    ensures fault { IfErr result (OfProcedure (λ _. ⊥) ⊥ (LacksNamed (because_queried options.now) graph.now shown.entry.view)
        (IsTooLarge (tells_rounds options.now.format) graph.now shown.entry.view.procedure)) }
    ensures faults { K.faults sink.new ≡ K.faults sink.old + write_faults_in result }
{
    let view = shown.view;
    match options.format {
        Format::Dot => push_picture(team, alloc, graph, view, options, sink),
        Format::Calls => push_calls(team, alloc, graph, options.asked.look.legend, sink),
        Format::Blocks => push_blocks(team, alloc, graph, view, sink),
        Format::Json => push_json_or_part(team, alloc, graph, shown, options, sink),
        Format::JsonPaths => push_json_paths(team, alloc, graph, shown, sink),
        Format::JsonChanges => push_json_changes(team, alloc, graph, shown, sink),
        Format::Steps => push_steps(team, alloc, graph, view, sink),
        Format::Report => push_report_or_part(team, alloc, graph, shown.digest, options, sink),
        Format::Html => push_html(team, alloc, graph, shown, options, sink),
        Format::HtmlPaths => push_html_paths(team, alloc, graph, shown, options, sink),
        Format::HtmlSteps => push_html_steps(team, alloc, graph, view, options, sink),
    }
}

/// What options ask for, and the gate that is told of the slices of the work.
#[derive(Drop)]
pub(crate) struct GatedOptions<'a> {
    pub(crate) options: &'a Options,
    pub(crate) gate: &'a Progress,
}

// Writes what the options ask for of this program, but for the procedure, which is found.
fn write_view<R: Threads + Sync, K: Sink>(
    rt: &R,
    alloc: Global,
    program: &Program,
    shown: Shown<'_>,
    gated: &GatedOptions<'_>,
    sink: &mut K,
) -> Result<(), Fault>
    requires threads { IsSync R.row }
    requires below { K.faults sink.old < 2 ^ 32 - 1 }
    requires there { IfSome shown.view.procedure (λ number. number < length program.now.procedure_names) }
    requires one { tells_rounds gated.now.options.now.format ≡ true → IsSome shown.view.procedure }
    ensures delivers { Delivers (λ out. HasFewPoints gated.now.options.now.limits program.now
        × HasFewBits gated.now.options.now.limits program.now
        × IsText gated.now.options.now.format (request_of gated.now.options.now) shown.entry.digest.now shown.entry.source.now program.now
        shown.entry.view out) (K.contents sink.old) (K.contents sink.new) result }
    ensures flushed { OnOk result (K.flushed sink.new ≡ true) }
    ensures fault { IfErr result (OfProcedure (IsOverLimit gated.now.options.now.limits program.now) ⊥
        (LacksNamed (because_queried gated.now.options.now) program.now shown.entry.view)
        (IsTooLarge (tells_rounds gated.now.options.now.format) program.now shown.entry.view.procedure)) }
    ensures faults { K.faults sink.new ≡ K.faults sink.old + write_faults_in result }
{
    let options = gated.options;
    let graph = graph_of(alloc, program, options.limits)?;
    let team = Team {
        rt,
        gate: gated.gate,
        workers: options.workers,
        cut: options.cut,
    };
    view_of_graph(&team, alloc, &graph, shown, options, sink)
}

// The text itself, where it is wanted.
fn text_if(alloc: Global, wanted: bool, text: &[u8]) -> Result<Vec<u8>, OutOfMemory>
    ensures { IfOk result (λ bytes. bytes.items ≡ kept_for None wanted text.now) }
{
    if wanted {
        text.to_vec(alloc)
    } else {
        Ok(Vec::new(alloc))
    }
}

// The source whose lines are told, by what was kept of the text.
fn source_of<'a>(options: &Options, kept: &'a [u8]) -> &'a [u8]
    ensures { result.now ≡ source_in (share_queried options.now) kept.now }
{
    match options.asked.share {
        Some(_) => b"",
        None => kept,
    }
}

impl Output for GatedOptions<'_> {
    ghost limits = { λ gated. gated.options.now.limits };

    ghost needs_graph = { λ _. true };

    ghost kept = { λ gated. kept_for (share_queried gated.options.now) (source_queried gated.options.now) };

    ghost is_output = { λ gated. IsShownBy (request_of gated.options.now) };

    ghost lacks = { λ gated. LacksProcedure (tells_rounds gated.options.now.format) (name_queried gated.options.now) };

    ghost exceeds = { λ gated. HasLargeProcedure (request_of gated.options.now) };

    ghost lacks_remark = { λ gated. LacksRemark (request_of gated.options.now) };

    fn limits(&self) -> Limits {
        self.options.limits
    }

    // The digest, which parts alone name, or the text, whose lines are told.
    fn keep(&self, alloc: Global, text: &[u8]) -> Result<Vec<u8>, OutOfMemory> {
        match self.options.asked.share {
            Some(_) => digest(alloc, text),
            None => text_if(alloc, self.options.asked.source, text),
        }
    }

    fn write<R: Threads + Sync, K: Sink>(
        &self,
        rt: &R,
        alloc: Global,
        mark: &[u8],
        program: &Program,
        sink: &mut K,
    ) -> Result<(), Fault> {
        let view = view_of(program, self.options)?;
        let shown = Shown {
            view,
            digest: mark,
            source: source_of(self.options, mark),
        };
        write_view(rt, alloc, program, shown, self, sink)
    }
}
