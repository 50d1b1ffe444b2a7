// The text of the rounds.

ghost use Rattle.std.specs.Prelude.{◌≡◌, ◌∷◌, ◌++◌, ◌<◌, [], suc, true, All, IfOk, OnOk, Some, codes, length, map, nat_le, if◌then◌else◌};
ghost use Rattle.flow_graph.specs.Points.{end_place};
ghost use Rattle.flow_views.specs.Json.{array};
ghost use Rattle.flow_views.specs.ViewTables.{AreViewTables};
ghost use Rattle.flow_views.specs.Views.{analysis_name, chosen_analyses, is_chosen, procedure_name};
ghost use Rattle.flow_views.specs.code.ViewProgram.{AreShown};
ghost use Rattle.report_answers.specs.code.Reported.{TellReport};
ghost use Rattle.text_pieces.specs.Strings.{quoted};
ghost use Rattle.flow_steps.specs.StepTexts.{AreAnalysisTexts, IsStepText, most_points};
ghost use Rattle.flow_steps.specs.code.Told.{HasAnalysis, head_told};

use crate::OutOfMemory;
use crate::lines::push_analysis;
use crate::push::{push_bytes, push_comma_if, push_number};
use flow_graph::{Analysis, Graph};
use flow_rounds::{Frame, PointRange};
use flow_views::{
    NameForm, View, ViewProgram, ViewTables, analysis_name, name_of_procedure, shown_points,
};
use json_texts::{write_end, write_named_program};
use report_answers::ReportAnswers;
use std::alloc::Global;
use std::marker::Model;
use text_pieces::{Pieces, Sink, Text, push_quoted};

/// The most points of a procedure whose rounds are shown.
pub const MOST_POINTS: u32 = 200;

/// Whether a procedure has few enough points for its rounds to be shown.
///
/// The condition: the procedure is there.
pub fn has_few_points(graph: &Graph<'_>, procedure: u32) -> bool
    requires { procedure < length graph.now.procedures }
    ensures { result ≡ nat_le (suc (end_place graph.now procedure)) most_points }
{
    let points = shown_points(graph, Some(procedure));
    points.end - points.first <= MOST_POINTS
}

// Whether an analysis is chosen.
fn is_told(shown: &ViewProgram<'_>, analysis: Analysis) -> bool
    requires { AreShown shown.now }
    ensures { result ≡ is_chosen shown.now.view.facts analysis }
{
    match shown.table(analysis) {
        Some(_) => true,
        None => false,
    }
}

// Puts an analysis last where it is wanted.
fn put_if(list: &mut Vec<Analysis>, wanted: bool, analysis: Analysis) -> Result<(), OutOfMemory>
    ensures { OnOk result (list.new.items ≡ list.old.items ++ (if wanted then analysis ∷ [] else [])) }
{
    if wanted {
        list.push(analysis)?;
    }
    Ok(())
}

// The analyses that are chosen.
fn analyses(alloc: Global, shown: &ViewProgram<'_>) -> Result<Vec<Analysis>, OutOfMemory>
    requires { AreShown shown.now }
    ensures { IfOk result (λ list. list.items ≡ chosen_analyses shown.now.view.facts) }
{
    let mut list = Vec::new(alloc);
    for analysis in Analysis::ALL {
        put_if(&mut list, is_told(shown, analysis), analysis)?;
    }
    Ok(list)
}

// Puts the names of some analyses behind a text, as an array.
fn push_names(text: &mut Vec<u8>, analyses: &[Analysis]) -> Result<(), OutOfMemory>
    ensures { OnOk result (text.new.items ≡ text.old.items ++ array (map (λ analysis. quoted (analysis_name analysis)) analyses.now)) }
{
    push_bytes(text, b"[")?;
    for (place, analysis) in analyses.iter().enumerate() {
        push_comma_if(text, 0 < place)?;
        push_quoted(text, analysis_name(*analysis))?;
    }
    push_bytes(text, b"]")?;
    Ok(())
}

// Puts which procedure is shown behind a text.
fn push_procedure(text: &mut Vec<u8>, graph: &Graph<'_>, procedure: u32) -> Result<(), OutOfMemory>
    requires { procedure < length graph.now.procedures }
    ensures { OnOk result (text.new.items ≡ text.old.items
        ++ (codes "{\"type\":\"steps\",\"procedure\":" ++ quoted (procedure_name graph.now procedure))) }
{
    // Its contract tells that each procedure has a name.
    let _ = graph.points();
    push_bytes(text, b"{\"type\":\"steps\",\"procedure\":")?;
    push_quoted(text, name_of_procedure(graph, procedure))?;
    Ok(())
}

// The line of what is shown.
fn head(
    alloc: Global,
    graph: &Graph<'_>,
    procedure: u32,
    analyses: &[Analysis],
) -> Result<Vec<u8>, OutOfMemory>
    requires { procedure < length graph.now.procedures }
    ensures { IfOk result (λ text. text.items ≡ head_told graph.now procedure analyses.now) }
{
    let points = shown_points(graph, Some(procedure));
    let mut text = Vec::new(alloc);
    push_procedure(&mut text, graph, procedure)?;
    push_bytes(&mut text, b",\"first\":")?;
    push_number(&mut text, points.first)?;
    push_bytes(&mut text, b",\"points\":")?;
    push_number(&mut text, points.end - points.first)?;
    push_bytes(&mut text, b",\"analyses\":")?;
    push_names(&mut text, analyses)?;
    push_bytes(&mut text, b"}\n")?;
    Ok(text)
}

// Puts the lines of an analysis behind a text.
fn push_lines(
    alloc: Global,
    text: &mut Vec<u8>,
    shown: &ViewProgram<'_>,
    procedure: u32,
    analysis: Analysis,
) -> Result<(), OutOfMemory>
    requires shown { AreShown shown.now }
    requires procedure { shown.now.view.procedure ≡ Some procedure }
    requires chosen { is_chosen shown.now.view.facts analysis ≡ true }
    ensures { OnOk result (HasAnalysis shown.now.found.graph.now procedure analysis text.old.items text.new.items) }
{
    let Some(table) = shown.table(analysis) else {
        return Ok(());
    };
    let graph = shown.found.graph;
    let numbers = shown_points(graph, Some(procedure));
    let points = PointRange {
        first: numbers.first,
        end: numbers.end,
    };
    let frame = Frame::of(alloc, graph, table, procedure, points)?;
    // Its contract tells that the order has each point that is computed once.
    let _ = frame.order();
    push_analysis(alloc, text, &frame)?;
    Ok(())
}

// The lines of some analyses.
fn lines_of(
    alloc: Global,
    shown: &ViewProgram<'_>,
    procedure: u32,
    analyses: &[Analysis],
) -> Result<Vec<u8>, OutOfMemory>
    requires shown { AreShown shown.now }
    requires procedure { shown.now.view.procedure ≡ Some procedure }
    requires chosen { All (λ analysis. is_chosen shown.now.view.facts analysis ≡ true) analyses.now }
    ensures { IfOk result (λ text. AreAnalysisTexts shown.now.found.graph.now procedure analyses.now text.items) }
{
    let mut text = Vec::new(alloc);
    for analysis in analyses {
        push_lines(alloc, &mut text, shown, procedure, *analysis)?;
    }
    Ok(text)
}

/// The rounds of Kildall's iteration in one procedure, as lines of JSON (Kildall 1973; Aho et al. 9.2):
///
///     {"type":"program","version":1, and so on, as [`JsonChangesText`](json_texts::JsonChangesText) has it}
///     {"type":"steps","procedure":"main","first":0,"points":4,"analyses":["reach"]}
///     {"type":"start","analysis":"reach","begin":"nothing","order":[1,2,3],"known":[{"point":0,"bits":[0]}]}
///     {"type":"round","analysis":"reach","round":1,"changed":[{"point":1,"came":[1],"went":[]}]}
///     {"type":"round","analysis":"reach","round":2,"changed":[]}
///     {"type":"end","points":4}
///
/// - `first` is the procedure's first point, `points` how many it has.
/// - `order` has the points that each round computes, in the order in which it takes them: reverse post-order of the steps in the direction of the
///   analysis. Before the first round their sets have `nothing`, or `everything` where sets are joined by intersection.
/// - `known` has all others with their sets, which stay as they are: where the procedure begins in that direction, where returns lead, and where
///   no valid path leads.
/// - A round has the points whose sets it changes, and the numbers of the bits that came and that went. The rounds end with the first that
///   changes nothing; then the sets are those of the table.
///
/// All is found where it is made, and it takes memory for two rounds and for the text. Each round looks at each step and each bit once.
#[derive(Drop)]
pub struct StepText<'a> {
    shown: ViewProgram<'a>,
    head: Vec<u8>,
    lines: Vec<u8>,
}

impl<'a> Model for StepText<'a> {
    ghost use Rattle.std.specs.Prelude.{◌≡◌, ◌++◌, List, ℕ};
    ghost use Rattle.flow_views.specs.code.ViewProgram.{AreShown};
    ghost use Rattle.flow_views.specs.declared.names.NameForm.TheVariants.{Quoted};
    ghost use Rattle.flow_views.specs.Json.{end_line};
    ghost use Rattle.json_texts.specs.Changes.{named_program_line};

    ghost Value = { List ℕ };

    ghost view = { λ text. named_program_line text.shown.found.graph.now ++ text.head.items ++ text.lines.items
        ++ end_line text.shown.found.graph.now text.shown.view };

    ghost invariant = { λ text. AreShown text.shown × (text.shown.names.form ≡ Quoted) };
}

impl<'a> StepText<'a> {
    /// The lines, ready to be written.
    ///
    /// The conditions: the answers to what a report asks and the tables are of this graph, these of the analyses that are shown, and the
    /// procedure is the one that is shown, and there. Fails only where memory runs out.
    pub fn of(
        alloc: Global,
        graph: &'a Graph<'a>,
        tables: &'a ViewTables,
        answers: &'a ReportAnswers,
        view: View,
        procedure: u32,
    ) -> Result<StepText<'a>, OutOfMemory>
        requires tables { AreViewTables graph.now view tables.now }
        requires answers { TellReport graph.now answers.now }
        requires shown { view.procedure ≡ Some procedure }
        requires procedure { procedure < length graph.now.procedure_names }
        ensures { IfOk result (IsStepText graph.now view) }
    {
        let shown = ViewProgram::of(alloc, graph, tables, answers, view, NameForm::Quoted)?;
        let analyses = analyses(alloc, &shown)?;
        let head = head(alloc, shown.found.graph, procedure, analyses.as_slice())?;
        let lines = lines_of(alloc, &shown, procedure, analyses.as_slice())?;
        Ok(StepText { shown, head, lines })
    }
}

impl<'a> Text for StepText<'a> {
    ghost bytes = { λ text. text };

    fn write<K: Sink>(&self, out: &mut Pieces<'_, K>) {
        write_named_program(&self.shown, out);
        out.write(&self.head);
        out.write(&self.lines);
        write_end(&self.shown, out);
    }
}
