// The text for Graphviz.

ghost use Rattle.std.specs.Prelude.{◌≡◌, ◌++◌, ◌<◌, ◌≤◌, ◌&&◌, true, All, None, Some, flat_map, length, map, not, if◌then◌else◌, IfOk, IfSome, codes, decimal};
ghost use Rattle.flow_graph.specs.Analyses.{main_procedure};
ghost use Rattle.flow_graph.specs.Points.{point_count, procedure_at, statement_at};
ghost use Rattle.text_pieces.specs.Pieces.{CanWrite, Writes};
ghost use Rattle.flow_reports.specs.Reports.{remark_text};
ghost use Rattle.report_answers.specs.code.Reported.{TellReport};
ghost use Rattle.flow_texts.specs.Tables.{line_at};
ghost use Rattle.tac_listing.specs.Listings.{statement_text};
ghost use Rattle.flow_views.specs.ViewTables.{AreViewTables};
ghost use Rattle.flow_views.specs.code.ViewProgram.{AreShown, AreShownProcedures, IsShownPoint, IsShownProcedure, IsShownTable, IsEndIn};
ghost use Rattle.flow_views.specs.code.ViewProgram.{known_of, numbers_of};
ghost use Rattle.flow_views.specs.declared.names.NameForm.TheVariants.{Escaped};
ghost use Rattle.flow_views.specs.Dots.{IsDot, across, all_clusters_of, arrow, behind_if, cluster_of, edge_line, edge_lines, fact_lines, facts_in_lines, head};
ghost use Rattle.flow_views.specs.Dots.{is_edge_shown, label_line, label_text, label_title, lines_on, node, node_body, open_dot, outcome_label};
ghost use Rattle.flow_views.specs.Dots.{outcome_mark, passed_call, set_names, shown_clusters_of, shown_edge, text_if, title, told_on, tooltip};
ghost use Rattle.point_sets.specs.SetLines.{columns};
ghost use Rattle.point_sets.specs.Sets.{has_behind};
ghost use Rattle.point_sets.specs.code.Lines.{set_from};
ghost use Rattle.point_sets.specs.declared.side.Side.TheVariants.{Behind};
ghost use Rattle.text_pieces.specs.Strings.{escaped};
ghost use Rattle.flow_views.specs.Views.{analysis_if, names_at, outcome, procedure_name, is_chosen};

use crate::OutOfMemory;
use crate::changes::write_changes_on;
use crate::legend::write_legend;
use crate::marks::{write_look, write_node_names};
use flow_graph::{Analysis, Edge, Graph};
use flow_reports::{Findings, Remark, RemarkForm, words_before_name, words_behind_name};
use flow_team::Table;
use flow_texts::{line, write_number};
use flow_views::{NameForm, Numbers, PointForm, View, ViewProgram, ViewTables, analysis_name};
use point_sets::{PointSet, Side, calls_at, has_behind, side_text, target_of, write_point_set};
use report_answers::ReportAnswers;
use std::alloc::Global;
use std::marker::Model;
use tac_listing::write_escaped_number;
use tac_program::{Label, Stmt};
use text_pieces::{Pieces, Sink, Text, write_escaped, write_quoted};

/// A remark as a line of a label.
#[derive(Clone, Copy)]
pub struct DotLine;

impl RemarkForm for DotLine {
    ghost text = { λ _ program _ remark. label_line (remark_text program remark) };

    fn write_remark<K: Sink>(
        &self,
        out: &mut Pieces<'_, K>,
        found: &Findings<'_>,
        _point: u32,
        remark: Remark,
    ) {
        write_escaped(out, words_before_name(remark));
        write_escaped(out, found.name(remark));
        write_escaped(out, words_behind_name(remark));
        out.write(b"\\l");
    }
}

/// Writes an arrow from a node to a node.
pub fn write_arrow<K: Sink>(out: &mut Pieces<'_, K>, source: u32, target: u32)
    requires { CanWrite K.Sink out.old }
    ensures { Writes K.Sink out.old out.new (arrow source target) }
{
    out.write(b"  ");
    write_number(out, source);
    out.write(b" -> ");
    write_number(out, target);
}

/// Writes what a picture begins with.
pub fn write_head<K: Sink>(out: &mut Pieces<'_, K>)
    requires { CanWrite K.Sink out.old }
    ensures { Writes K.Sink out.old out.new head }
{
    out.write(b"digraph \"tacflow\" {\n");
    out.write(b"  graph [fontname=\"monospace\", labeljust=l];\n");
    out.write(b"  node [shape=box, fontname=\"monospace\", fontsize=11];\n");
    out.write(b"  edge [class=\"step\", fontname=\"monospace\", fontsize=10];\n");
}

// Writes how a test comes out, as the label of an edge.
fn write_outcome_label<K: Sink>(out: &mut Pieces<'_, K>, holds: bool)
    requires { CanWrite K.Sink out.old }
    ensures { Writes K.Sink out.old out.new (outcome_label holds) }
{
    if holds {
        out.write(b" [label=\"T\"]");
    } else {
        out.write(b" [label=\"F\"]");
    }
}

// Writes a label as a line.
fn write_label_line<K: Sink>(
    shown: &ViewProgram<'_>,
    out: &mut Pieces<'_, K>,
    point: u32,
    label: Label,
)
    requires ready { CanWrite K.Sink out.old }
    requires point { point < point_count shown.now.found.graph.now }
    ensures { Writes K.Sink out.old out.new (label_line (label_title shown.now.found.graph.now point label)) }
{
    write_escaped(out, shown.label_name(point, label));
    out.write(b":");
    out.write(b"\\l");
}

/// Writes labels of a point, each as a line.
pub fn write_label_lines<K: Sink>(
    shown: &ViewProgram<'_>,
    out: &mut Pieces<'_, K>,
    point: u32,
    labels: &[Label],
)
    requires ready { CanWrite K.Sink out.old }
    requires point { point < point_count shown.now.found.graph.now }
    ensures { Writes K.Sink out.old out.new
        (flat_map (λ label. label_line (label_title shown.now.found.graph.now point label)) labels.now) }
{
    for label in labels {
        write_label_line(shown, out, point, *label);
    }
}

// Writes the title of a statement.
fn write_statement_title<K: Sink>(
    shown: &ViewProgram<'_>,
    out: &mut Pieces<'_, K>,
    point: u32,
    stmt: &Stmt,
)
    requires ready { CanWrite K.Sink out.old }
    requires shown { AreShown shown.now }
    requires point { point < point_count shown.now.found.graph.now }
    requires statement { statement_at shown.now.found.graph.now point ≡ Some stmt.now }
    ensures { Writes K.Sink out.old out.new
        (escaped (decimal stmt.now.span.line ++ codes ": " ++ statement_text (names_at shown.now.found.graph.now point) stmt.now.kind)) }
{
    write_escaped_number(out, stmt.span.line as u64);
    out.write(b": ");
    shown.write_statement(out, point, stmt);
}

// Writes the title of a procedure's end.
fn write_end_title<K: Sink>(shown: &ViewProgram<'_>, out: &mut Pieces<'_, K>, point: u32)
    requires ready { CanWrite K.Sink out.old }
    requires shown { AreShown shown.now }
    requires point { point < point_count shown.now.found.graph.now }
    ensures { Writes K.Sink out.old out.new
        (escaped (codes "end of " ++ procedure_name shown.now.found.graph.now (procedure_at shown.now.found.graph.now point))) }
{
    out.write(b"end of ");
    write_escaped(out, shown.procedure_name(shown.scope(point).procedure));
}

/// Writes the line of a point's statement, or of a procedure's end, without what ends it.
///
/// The condition: it is one program that is shown, with this point.
pub fn write_title<K: Sink>(shown: &ViewProgram<'_>, out: &mut Pieces<'_, K>, point: u32)
    requires ready { CanWrite K.Sink out.old }
    requires shown { AreShown shown.now }
    requires point { point < point_count shown.now.found.graph.now }
    ensures { Writes K.Sink out.old out.new (escaped (title shown.now.found.graph.now point)) }
{
    match shown.found.graph.stmt(point) {
        Some(stmt) => write_statement_title(shown, out, point, stmt),
        None => write_end_title(shown, out, point),
    }
}

/// Writes the set of an analysis on a side of a statement, behind so many signs of its first line.
///
/// The conditions: it is one program that is shown, with names as a picture has them; the table is one of its tables and the point is shown;
/// a set of its own stands on that side, and the first line has less than 60 signs.
pub fn write_set_on<K: Sink>(
    shown: &ViewProgram<'_>,
    out: &mut Pieces<'_, K>,
    table: &Table,
    point: u32,
    side: Side,
    column: usize,
)
    requires ready { CanWrite K.Sink out.old }
    requires shown { AreShown shown.now }
    requires form { shown.now.names.form ≡ Escaped }
    requires table { IsShownTable shown.now table.now }
    requires point { point < point_count shown.now.found.graph.now }
    requires shows { IsShownPoint shown.now point }
    requires side { side ≡ Behind → has_behind shown.now.found.graph.now point ≡ true }
    requires column { column < columns }
    ensures { Writes K.Sink out.old out.new (set_from column
        (map escaped (set_names shown.now.found.graph.now (known_of shown.now) shown.now.view point table.now.analysis side))) }
{
    let set = PointSet {
        graph: shown.found.graph,
        table,
        edges: shown.edges(point),
        point,
        side,
        hides_entry: shown.view.look.hides_entry,
    };
    write_point_set(out, shown.names(table.analysis()), &set, column);
}

// Writes it in lines.
fn write_lines_on<K: Sink>(
    shown: &ViewProgram<'_>,
    out: &mut Pieces<'_, K>,
    table: &Table,
    point: u32,
    side: Side,
)
    requires ready { CanWrite K.Sink out.old }
    requires shown { AreShown shown.now }
    requires form { shown.now.names.form ≡ Escaped }
    requires table { IsShownTable shown.now table.now }
    requires point { point < point_count shown.now.found.graph.now }
    requires shows { IsShownPoint shown.now point }
    requires side { side ≡ Behind → has_behind shown.now.found.graph.now point ≡ true }
    ensures { Writes K.Sink out.old out.new
        (flat_map label_line (lines_on shown.now.found.graph.now (known_of shown.now) shown.now.view point table.now.analysis side)) }
{
    let name = analysis_name(table.analysis());
    let behind_name = side_text(side);
    out.write(name);
    out.write(behind_name);
    write_set_on(
        shown,
        out,
        table,
        point,
        side,
        name.len() + behind_name.len(),
    );
    out.write(b"\\l");
}

// Writes the set of an analysis on a side of a statement, or what changes up to it.
fn write_told_on<K: Sink>(
    shown: &ViewProgram<'_>,
    out: &mut Pieces<'_, K>,
    table: &Table,
    point: u32,
    side: Side,
)
    requires ready { CanWrite K.Sink out.old }
    requires shown { AreShown shown.now }
    requires form { shown.now.names.form ≡ Escaped }
    requires table { IsShownTable shown.now table.now }
    requires point { point < point_count shown.now.found.graph.now }
    requires shows { IsShownPoint shown.now point }
    requires side { side ≡ Behind → has_behind shown.now.found.graph.now point ≡ true }
    ensures { Writes K.Sink out.old out.new
        (flat_map label_line (told_on shown.now.found.graph.now (known_of shown.now) shown.now.view point table.now.analysis side)) }
{
    if shown.view.look.changes {
        write_changes_on(shown, out, table, point, side);
    } else {
        write_lines_on(shown, out, table, point, side);
    }
}

// Whether the sets behind the statement at a point are shown.
fn shows_behind(shown: &ViewProgram<'_>, point: u32) -> bool
    requires { point < point_count shown.now.found.graph.now }
    ensures { result ≡ (shown.now.view.look.behind && has_behind shown.now.found.graph.now point) }
{
    shown.view.look.behind && has_behind(shown.found.graph, point)
}

// Writes what an analysis tells behind a statement, where that is shown.
fn write_behind_if<K: Sink>(
    shown: &ViewProgram<'_>,
    out: &mut Pieces<'_, K>,
    table: &Table,
    point: u32,
)
    requires ready { CanWrite K.Sink out.old }
    requires shown { AreShown shown.now }
    requires form { shown.now.names.form ≡ Escaped }
    requires table { IsShownTable shown.now table.now }
    requires point { point < point_count shown.now.found.graph.now }
    requires shows { IsShownPoint shown.now point }
    ensures { Writes K.Sink out.old out.new
        (flat_map (λ s. flat_map label_line (told_on shown.now.found.graph.now (known_of shown.now) shown.now.view point table.now.analysis s))
        (behind_if (shown.now.view.look.behind && has_behind shown.now.found.graph.now point))) }
{
    if !shows_behind(shown, point) {
        return;
    }
    write_told_on(shown, out, table, point, Side::Behind);
}

// Writes what an analysis tells at a point, where it is chosen.
fn write_fact_if<K: Sink>(
    shown: &ViewProgram<'_>,
    out: &mut Pieces<'_, K>,
    point: u32,
    analysis: Analysis,
)
    requires ready { CanWrite K.Sink out.old }
    requires shown { AreShown shown.now }
    requires form { shown.now.names.form ≡ Escaped }
    requires point { point < point_count shown.now.found.graph.now }
    requires shows { IsShownPoint shown.now point }
    ensures { Writes K.Sink out.old out.new
        (flat_map (λ a. flat_map label_line (fact_lines shown.now.found.graph.now (known_of shown.now) shown.now.view point a))
        (analysis_if (is_chosen shown.now.view.facts analysis) analysis)) }
{
    let Some(table) = shown.table(analysis) else {
        return;
    };
    write_told_on(shown, out, table, point, Side::Before);
    write_behind_if(shown, out, table, point);
}

// Writes what the chosen analyses tell at a point.
fn write_facts<K: Sink>(shown: &ViewProgram<'_>, out: &mut Pieces<'_, K>, point: u32)
    requires ready { CanWrite K.Sink out.old }
    requires shown { AreShown shown.now }
    requires form { shown.now.names.form ≡ Escaped }
    requires point { point < point_count shown.now.found.graph.now }
    requires shows { IsShownPoint shown.now point }
    ensures { Writes K.Sink out.old out.new (facts_in_lines shown.now.found.graph.now (known_of shown.now) shown.now.view point) }
{
    for analysis in Analysis::ALL {
        write_fact_if(shown, out, point, analysis);
    }
}

// Writes the facts of a point where they stand in its node.
fn write_label_facts<K: Sink>(shown: &ViewProgram<'_>, out: &mut Pieces<'_, K>, point: u32)
    requires ready { CanWrite K.Sink out.old }
    requires shown { AreShown shown.now }
    requires form { shown.now.names.form ≡ Escaped }
    requires point { point < point_count shown.now.found.graph.now }
    requires shows { IsShownPoint shown.now point }
    ensures { Writes K.Sink out.old out.new
        (text_if (not shown.now.view.look.hovers) (facts_in_lines shown.now.found.graph.now (known_of shown.now) shown.now.view point)) }
{
    if shown.view.look.hovers {
        return;
    }
    write_facts(shown, out, point);
}

// Writes the lines of a node.
fn write_label<K: Sink>(shown: &ViewProgram<'_>, out: &mut Pieces<'_, K>, point: u32)
    requires ready { CanWrite K.Sink out.old }
    requires shown { AreShown shown.now }
    requires form { shown.now.names.form ≡ Escaped }
    requires point { point < point_count shown.now.found.graph.now }
    requires shows { IsShownPoint shown.now point }
    ensures { Writes K.Sink out.old out.new (label_text shown.now.found.graph.now (known_of shown.now) shown.now.view point) }
{
    write_label_lines(shown, out, point, shown.labels(point));
    write_title(shown, out, point);
    out.write(b"\\l");
    shown.write_remarks_at(&DotLine, out, point);
    write_label_facts(shown, out, point);
}

// Writes the facts of a point where they stand in its tooltip.
fn write_tooltip<K: Sink>(shown: &ViewProgram<'_>, out: &mut Pieces<'_, K>, point: u32)
    requires ready { CanWrite K.Sink out.old }
    requires shown { AreShown shown.now }
    requires form { shown.now.names.form ≡ Escaped }
    requires point { point < point_count shown.now.found.graph.now }
    requires shows { IsShownPoint shown.now point }
    ensures { Writes K.Sink out.old out.new (tooltip shown.now.found.graph.now (known_of shown.now) shown.now.view point) }
{
    if !shown.view.look.hovers {
        return;
    }
    out.write(b", tooltip=\"");
    write_facts(shown, out, point);
    out.write(b"\"");
}

// Writes a node behind its number.
fn write_node<K: Sink>(shown: &ViewProgram<'_>, out: &mut Pieces<'_, K>, point: u32)
    requires ready { CanWrite K.Sink out.old }
    requires shown { AreShown shown.now }
    requires form { shown.now.names.form ≡ Escaped }
    requires point { point < point_count shown.now.found.graph.now }
    requires shows { IsShownPoint shown.now point }
    ensures { Writes K.Sink out.old out.new (node_body shown.now.found.graph.now (known_of shown.now) shown.now.view point) }
{
    let marks = shown.marks(point);
    write_node_names(out, point, marks);
    write_label(shown, out, point);
    out.write(b"\"");
    write_tooltip(shown, out, point);
    write_look(out, marks);
    out.write(b"];\n");
}

// Writes a procedure as a cluster, with its points in a form.
fn write_cluster<F: PointForm, K: Sink>(
    form: &F,
    shown: &ViewProgram<'_>,
    out: &mut Pieces<'_, K>,
    procedure: u32,
)
    requires ready { CanWrite K.Sink out.old }
    requires shown { AreShown shown.now }
    requires form { shown.now.names.form ≡ F.name_form form.now }
    requires procedure { procedure < length shown.now.found.graph.now.procedures }
    requires shows { IsShownProcedure shown.now.view.procedure procedure }
    ensures { Writes K.Sink out.old out.new (cluster_of (F.text form.now shown.now) shown.now.found.graph.now procedure) }
{
    out.write(b"  subgraph \"cluster_");
    write_number(out, procedure);
    out.write(b"\" {\n");
    out.write(b"    id=\"procedure");
    write_number(out, procedure);
    out.write(b"\";\n    class=\"procedure\";\n");
    out.write(b"    label=");
    write_quoted(out, shown.procedure_name(procedure));
    out.write(b";\n");
    shown.write_points(form, out, procedure);
    out.write(b"  }\n");
}

// Writes the procedures that are shown.
fn write_clusters<F: PointForm, K: Sink>(
    form: &F,
    shown: &ViewProgram<'_>,
    out: &mut Pieces<'_, K>,
    procedures: Numbers,
)
    requires ready { CanWrite K.Sink out.old }
    requires shown { AreShown shown.now }
    requires form { shown.now.names.form ≡ F.name_form form.now }
    requires ordered { procedures.first ≤ procedures.end }
    requires procedures { procedures.end ≤ length shown.now.found.graph.now.procedures }
    requires shows { AreShownProcedures shown.now.view.procedure procedures }
    ensures { Writes K.Sink out.old out.new
        (flat_map (cluster_of (F.text form.now shown.now) shown.now.found.graph.now) (numbers_of procedures)) }
{
    for procedure in procedures.first..procedures.end {
        write_cluster(form, shown, out, procedure);
    }
}

// The number of the procedure `main`.
fn main_procedure(shown: &ViewProgram<'_>) -> u32
    requires { AreShown shown.now }
    ensures number { result ≡ main_procedure shown.now.found.graph.now }
    ensures there { result < length shown.now.found.graph.now.procedures }
{
    let names = shown.found.graph.program().procedure_names();
    names.find(b"main").unwrap_or(0)
}

// How many procedures there are.
fn procedure_count(shown: &ViewProgram<'_>) -> u32
    requires { AreShown shown.now }
    ensures { result ≡ length shown.now.found.graph.now.procedures }
{
    shown.found.graph.program().procs().len() as u32
}

// Writes the clusters of all procedures, that of `main` first.
fn write_all_clusters<F: PointForm, K: Sink>(
    form: &F,
    shown: &ViewProgram<'_>,
    out: &mut Pieces<'_, K>,
)
    requires ready { CanWrite K.Sink out.old }
    requires shown { AreShown shown.now }
    requires form { shown.now.names.form ≡ F.name_form form.now }
    requires all { shown.now.view.procedure ≡ None }
    ensures { Writes K.Sink out.old out.new (all_clusters_of (F.text form.now shown.now) shown.now.found.graph.now) }
{
    let main = main_procedure(shown);
    let end = procedure_count(shown);
    write_cluster(form, shown, out, main);
    write_clusters(
        form,
        shown,
        out,
        Numbers {
            first: 0,
            end: main,
        },
    );
    write_clusters(
        form,
        shown,
        out,
        Numbers {
            first: main + 1,
            end,
        },
    );
}

/// Writes the clusters that are shown, with the points of each in a form.
///
/// The conditions: it is one program that is shown, with names in this form.
pub fn write_shown_clusters<F: PointForm, K: Sink>(
    form: &F,
    shown: &ViewProgram<'_>,
    out: &mut Pieces<'_, K>,
)
    requires ready { CanWrite K.Sink out.old }
    requires shown { AreShown shown.now }
    requires form { shown.now.names.form ≡ F.name_form form.now }
    ensures { Writes K.Sink out.old out.new
        (shown_clusters_of (F.text form.now shown.now) shown.now.found.graph.now shown.now.view.procedure) }
{
    match shown.view.procedure {
        Some(procedure) => write_cluster(form, shown, out, procedure),
        None => write_all_clusters(form, shown, out),
    }
}

/// Writes the outcome by which a step is taken.
///
/// The condition: it is one program that is shown, with this point.
pub fn write_outcome<K: Sink>(
    shown: &ViewProgram<'_>,
    out: &mut Pieces<'_, K>,
    source: u32,
    target: u32,
)
    requires ready { CanWrite K.Sink out.old }
    requires shown { AreShown shown.now }
    requires source { source < point_count shown.now.found.graph.now }
    ensures { Writes K.Sink out.old out.new (outcome_mark (outcome shown.now.found.graph.now source target)) }
{
    match shown.outcome(source, target) {
        Some(holds) => write_outcome_label(out, holds),
        None => {},
    }
}

// Writes a step.
fn write_step<K: Sink>(shown: &ViewProgram<'_>, out: &mut Pieces<'_, K>, source: u32, target: u32)
    requires ready { CanWrite K.Sink out.old }
    requires shown { AreShown shown.now }
    requires source { source < point_count shown.now.found.graph.now }
    ensures { Writes K.Sink out.old out.new
        (arrow source target ++ outcome_mark (outcome shown.now.found.graph.now source target) ++ codes ";\n") }
{
    write_arrow(out, source, target);
    write_outcome(shown, out, source, target);
    out.write(b";\n");
}

// Writes what an edge between procedures looks like, with its word and the line of the call.
fn write_across<K: Sink>(out: &mut Pieces<'_, K>, word: &[u8], line: u32)
    requires { CanWrite K.Sink out.old }
    ensures { Writes K.Sink out.old out.new (across word.now line) }
{
    out.write(b" [class=\"");
    out.write(word);
    out.write(b"\", style=dashed, color=grey60, fontcolor=grey40, constraint=false, xlabel=\"");
    out.write(word);
    out.write(b" ");
    write_number(out, line);
    out.write(b"\"];\n");
}

/// Writes the edge of a call or a return, with the line of the call.
pub fn write_passage<K: Sink>(
    shown: &ViewProgram<'_>,
    out: &mut Pieces<'_, K>,
    source: u32,
    target: u32,
    word: &[u8],
    site: u32,
)
    requires ready { CanWrite K.Sink out.old }
    requires site { site < point_count shown.now.found.graph.now }
    ensures { Writes K.Sink out.old out.new (arrow source target ++ across word.now (line_at shown.now.found.graph.now site)) }
{
    write_arrow(out, source, target);
    write_across(out, word, line(shown.found.graph, site));
}

// Writes an edge.
fn write_edge<K: Sink>(shown: &ViewProgram<'_>, out: &mut Pieces<'_, K>, edge: Edge)
    requires ready { CanWrite K.Sink out.old }
    requires shown { AreShown shown.now }
    requires edge { IsEndIn shown.now.found.graph.now edge }
    ensures { Writes K.Sink out.old out.new (edge_line shown.now.found.graph.now edge) }
{
    match edge {
        Edge::Step { from, to } => write_step(shown, out, from, to),
        Edge::Call { site, from, to } => write_passage(shown, out, from, to, b"call", site),
        Edge::Ret { site, from, to } => write_passage(shown, out, from, to, b"return", site),
    }
}

/// Whether an edge is shown: of one procedure those that stay in it.
pub fn shows_edge(shown: &ViewProgram<'_>, edge: Edge) -> bool
    requires { AreShown shown.now }
    ensures { result ≡ is_edge_shown shown.now.found.graph.now shown.now.view edge }
{
    let Some(procedure) = shown.view.procedure else {
        return true;
    };
    let points = shown.points_of(procedure);
    let target = target_of(edge);
    points.first <= target && target < points.end
}

// Writes an edge where it is shown.
fn write_shown_edge<K: Sink>(shown: &ViewProgram<'_>, out: &mut Pieces<'_, K>, edge: Edge)
    requires ready { CanWrite K.Sink out.old }
    requires shown { AreShown shown.now }
    requires edge { IsEndIn shown.now.found.graph.now edge }
    ensures { Writes K.Sink out.old out.new (shown_edge shown.now.found.graph.now shown.now.view edge) }
{
    if !shows_edge(shown, edge) {
        return;
    }
    write_edge(shown, out, edge);
}

// Writes those of some edges that are shown.
fn write_shown_edges<K: Sink>(shown: &ViewProgram<'_>, out: &mut Pieces<'_, K>, edges: &[Edge])
    requires ready { CanWrite K.Sink out.old }
    requires shown { AreShown shown.now }
    requires edges { All (IsEndIn shown.now.found.graph.now) edges.now }
    ensures { Writes K.Sink out.old out.new (flat_map (shown_edge shown.now.found.graph.now shown.now.view) edges.now) }
{
    for edge in edges {
        write_shown_edge(shown, out, *edge);
    }
}

/// Joins a call to the point behind it.
///
/// The condition: it is one program that is shown, with this point.
pub fn write_passed_call<K: Sink>(shown: &ViewProgram<'_>, out: &mut Pieces<'_, K>, point: u32)
    requires ready { CanWrite K.Sink out.old }
    requires shown { AreShown shown.now }
    requires point { point < point_count shown.now.found.graph.now }
    ensures { Writes K.Sink out.old out.new (passed_call shown.now.found.graph.now point) }
{
    if !calls_at(shown.found.graph, point) {
        return;
    }
    write_arrow(out, point, point + 1);
    out.write(b" [class=\"passed\", style=dotted, arrowhead=none];\n");
}

/// Writes the picture, but for the line that ends it.
///
/// The conditions: it is one program that is shown, with names as a picture has them.
pub fn write_open_dot<K: Sink>(shown: &ViewProgram<'_>, out: &mut Pieces<'_, K>)
    requires ready { CanWrite K.Sink out.old }
    requires shown { AreShown shown.now }
    requires form { shown.now.names.form ≡ Escaped }
    ensures { Writes K.Sink out.old out.new (open_dot shown.now.found.graph.now (known_of shown.now) shown.now.view) }
{
    write_head(out);
    write_shown_clusters(&DotNodes, shown, out);
    shown.write_all_points(&DotEdges, out);
    write_legend(out, shown.view.look.legend, shown.view.look.changes);
}

// A point as a node.
#[derive(Clone, Copy)]
struct DotNodes;

impl PointForm for DotNodes {
    ghost name_form = { λ _. Escaped };

    ghost text = { λ _ shown point. node shown.found.graph.now (known_of shown) shown.view point };

    fn write_point<K: Sink>(&self, out: &mut Pieces<'_, K>, shown: &ViewProgram<'_>, point: u32) {
        if out.has_failed() {
            return;
        }
        out.write(b"    ");
        write_number(out, point);
        write_node(shown, out, point);
    }
}

// The edges of a point.
#[derive(Clone, Copy)]
struct DotEdges;

impl PointForm for DotEdges {
    ghost name_form = { λ _. Escaped };

    ghost text = { λ _ shown point. edge_lines shown.found.graph.now shown.view point };

    fn write_point<K: Sink>(&self, out: &mut Pieces<'_, K>, shown: &ViewProgram<'_>, point: u32) {
        if out.has_failed() {
            return;
        }
        write_shown_edges(shown, out, shown.edges(point));
        write_passed_call(shown, out, point);
    }
}

/// The flow graph of a program with its facts, as a picture for Graphviz: each procedure is a cluster `cluster_NUMBER` with its
/// name, that of `main` first, each point a node, named by its number. Its label has a line each for
///
/// - each of its labels, `LABEL:`;
/// - the statement, `LINE: STATEMENT` as a listing writes it, or `end of NAME` at a procedure's end;
/// - each remark that a report makes on it, in the report's words and order;
/// - each chosen analysis, `reach: SET`, `live: SET`, `avail: SET`, `busy: SET`, with the set as `TableText` has it, or without the dummy
///   definitions, broken where a line would have more than 60 signs; and where that is asked for, the set behind a statement that is no
///   call, `reach behind: SET`. In place of the sets stands, where that is asked for, what came and what went against the point before in
///   the same procedure, `reach came: SET` and `reach went: SET`, and against the set before the statement, `reach came behind: SET`; no
///   line where it is nothing. They stand in the node's tooltip where that is asked for.
///
/// A point is grey where no valid path leads there. Else it is red where its statement reads a variable that may be unset, and
/// yellow where it is an assignment that is dead. A doubtful point has a second border, whatever else it is. Its class has the same in words,
/// and its identity its number. A legend tells what marks mean, where it is asked for.
///
/// A step is a solid edge, with T or F where a test comes out so. A call and a return are dashed and grey, with the line of the call; they
/// do not rank their nodes. A dotted line without a head joins each call to the point behind it, and does. Where one procedure is shown, these
/// are the edges that stay in it.
///
/// The work is linear in the program, its edges, the text, and the bits of the chosen analyses' sets and of the tests' sets of
/// very busy expressions.
#[derive(Drop)]
pub struct DotText<'a> {
    shown: ViewProgram<'a>,
}

impl<'a> Model for DotText<'a> {
    ghost use Rattle.std.specs.Prelude.{◌≡◌, List, ℕ};
    ghost use Rattle.flow_views.specs.code.ViewProgram.{AreShown, known_of};
    ghost use Rattle.flow_views.specs.declared.names.NameForm.TheVariants.{Escaped};
    ghost use Rattle.flow_views.specs.Dots.{dot_of};

    ghost Value = { List ℕ };

    ghost view = { λ text. dot_of text.shown.found.graph.now (known_of text.shown) text.shown.view };

    ghost invariant = { λ text. AreShown text.shown × (text.shown.names.form ≡ Escaped) };
}

impl<'a> DotText<'a> {
    /// The picture, ready to be written.
    ///
    /// The conditions: the answers to what a report asks and the tables are of this graph, these of the analyses that are shown, and the
    /// procedure that is shown is one of its program. Fails only where memory runs out.
    pub fn of(
        alloc: Global,
        graph: &'a Graph<'a>,
        tables: &'a ViewTables,
        answers: &'a ReportAnswers,
        view: View,
    ) -> Result<DotText<'a>, OutOfMemory>
        requires tables { AreViewTables graph.now view tables.now }
        requires answers { TellReport graph.now answers.now }
        requires procedure { IfSome view.procedure (λ procedure. procedure < length graph.now.procedure_names) }
        ensures { IfOk result (IsDot graph.now view) }
    {
        let shown = ViewProgram::of(alloc, graph, tables, answers, view, NameForm::Escaped)?;
        Ok(DotText { shown })
    }
}

impl<'a> Text for DotText<'a> {
    ghost bytes = { λ text. text };

    fn write<K: Sink>(&self, out: &mut Pieces<'_, K>) {
        write_open_dot(&self.shown, out);
        out.write(b"}\n");
    }
}
