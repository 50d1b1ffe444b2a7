// The text of lines of JSON.

ghost use Rattle.flow_team.specs.Tables.{facts_of};
ghost use Rattle.std.specs.Prelude.{◌≡◌, ◌+◌, ◌++◌, ◌<◌, ◌≤◌, All, Some, codes, decimal, filter, flat_map, length, map, IfOk, IfSome};
ghost use Rattle.std.specs.List.{range_with_len};
ghost use Rattle.flow_graph.specs.Points.{place_of, point_count, procedure_at, statement_at};
ghost use Rattle.flow_reports.specs.code.Findings.{AreChosenFindings, AreFindings, IsRemarkIn};
ghost use Rattle.text_pieces.specs.code.Lists.{text_at};
ghost use Rattle.text_pieces.specs.Pieces.{CanWrite, Writes};
ghost use Rattle.report_answers.specs.code.Reported.{TellReport};
ghost use Rattle.tac_listing.specs.Listings.{statement_text};
ghost use Rattle.flow_views.specs.ViewTables.{AreViewTables};
ghost use Rattle.flow_views.specs.code.ViewProgram.{AreShown, IsEndIn, IsShownPoint, TellSame, known_of};
ghost use Rattle.flow_views.specs.declared.names.NameForm.TheVariants.{Quoted};
ghost use Rattle.flow_views.specs.Json.{IsJson, array, boolean, end_line, facts_field, json_with, point_edge, point_line, point_parts, program_line};
ghost use Rattle.flow_views.specs.Json.{remark_fields, remark_head, remark_object, span_fields, statement_field, when_field};
ghost use Rattle.flow_reports.specs.Reports.{remarks_at};
ghost use Rattle.json_texts.specs.Changes.{program_head};
ghost use Rattle.json_texts.specs.code.Lined.{sets_with};
ghost use Rattle.source_lines.specs.SourceLines.{all_of_lined};
ghost use Rattle.text_pieces.specs.Strings.{quoted};
ghost use Rattle.flow_views.specs.Views.{analysis_if, chosen_analyses, label_name, names_at, outcome, procedure_name, known_facts, is_chosen};

use crate::OutOfMemory;
use crate::outlines::{
    PointOutline, write_boolean, write_place, write_point_fields, write_point_place, write_program,
};
use flow_graph::{Analysis, Edge, Graph};
use flow_reports::{Findings, Remark, RemarkForm};
use flow_team::Table;
use flow_texts::{write_members, write_number};
use flow_views::{NameForm, PointForm, View, ViewProgram, ViewTables, analysis_name, shown_points};
use itoa::Buffer;
use report_answers::ReportAnswers;
use source_lines::LinedText;
use std::alloc::Global;
use std::marker::Model;
use tac_program::{Label, Span, Stmt};
use text_pieces::{Pieces, Sink, TextBlock, write_if, write_quoted};

// Writes a kind with the field of what is named, and the name.
fn write_named<K: Sink>(out: &mut Pieces<'_, K>, kind: &[u8], name: &[u8])
    requires { CanWrite K.Sink out.old }
    ensures { Writes K.Sink out.old out.new (kind.now ++ quoted name.now) }
{
    out.write(kind);
    write_quoted(out, name);
}

// Writes the kind of a remark, and what it names.
fn write_kind<K: Sink>(out: &mut Pieces<'_, K>, found: &Findings<'_>, remark: Remark)
    requires ready { CanWrite K.Sink out.old }
    requires found { AreChosenFindings found.now }
    requires remark { IsRemarkIn found.now.graph.now remark }
    ensures { Writes K.Sink out.old out.new (remark_fields found.now.graph.now remark) }
{
    let name = found.chosen_name(remark);
    match remark {
        Remark::NeverReached => out.write(b"\"never_reached\""),
        Remark::Unset { .. } => write_named(out, b"\"unset\",\"variable\":", name),
        Remark::Computed { .. } => write_named(out, b"\"computed\",\"expression\":", name),
        Remark::VeryBusy { .. } => write_named(out, b"\"busy\",\"expression\":", name),
        Remark::Dead { .. } => write_named(out, b"\"dead\",\"variable\":", name),
    }
}

/// Writes a remark as an object but for its end, a brace and a line feed, before which fields may stand.
///
/// The conditions: what was found is of one program, and it has the point and what the remark names.
pub fn write_remark_head<K: Sink>(
    out: &mut Pieces<'_, K>,
    found: &Findings<'_>,
    point: u32,
    remark: Remark,
)
    requires ready { CanWrite K.Sink out.old }
    requires found { AreFindings found.now }
    requires point { point < point_count found.now.graph.now }
    requires remark { IsRemarkIn found.now.graph.now remark }
    ensures { Writes K.Sink out.old out.new (remark_head found.now.graph.now point remark) }
{
    write_chosen_head(out, found, point, remark);
}

/// The same of findings that may be of chosen bits alone.
pub fn write_chosen_head<K: Sink>(
    out: &mut Pieces<'_, K>,
    found: &Findings<'_>,
    point: u32,
    remark: Remark,
)
    requires ready { CanWrite K.Sink out.old }
    requires found { AreChosenFindings found.now }
    requires point { point < point_count found.now.graph.now }
    requires remark { IsRemarkIn found.now.graph.now remark }
    ensures { Writes K.Sink out.old out.new (remark_head found.now.graph.now point remark) }
{
    out.write(b"{\"type\":\"remark\",\"point\":");
    write_number(out, point);
    write_place(out, found.graph, point);
    out.write(b",\"kind\":");
    write_kind(out, found, remark);
}

/// A remark as an object.
#[derive(Clone, Copy)]
pub(crate) struct JsonLine;

impl RemarkForm for JsonLine {
    ghost text = { λ _ program point remark. remark_object program point remark };

    fn write_remark<K: Sink>(
        &self,
        out: &mut Pieces<'_, K>,
        found: &Findings<'_>,
        point: u32,
        remark: Remark,
    ) {
        write_remark_head(out, found, point, remark);
        out.write(b"}\n");
    }
}

/// Writes the texts of those of a point's bits that lie before `bits` as an array.
pub(crate) fn write_array<K: Sink>(
    out: &mut Pieces<'_, K>,
    texts: &TextBlock,
    table: &Table,
    point: u32,
    bits: u32,
)
    requires ready { CanWrite K.Sink out.old }
    requires commas { texts.now.between ≡ codes "," }
    requires point { point < length table.now.paths }
    requires bits { bits ≤ length texts.now.texts }
    ensures { Writes K.Sink out.old out.new
        (array (map (text_at texts.now.texts) (filter ((facts_of table.now).contains point) (range_with_len 0 bits)))) }
{
    out.write(b"[");
    write_members(out, texts, table, point, bits);
    out.write(b"]");
}

// Writes what an analysis tells at a point.
fn write_facts_field<K: Sink>(
    shown: &ViewProgram<'_>,
    out: &mut Pieces<'_, K>,
    table: &Table,
    point: u32,
    analysis: Analysis,
)
    requires ready { CanWrite K.Sink out.old }
    requires shown { AreShown shown.now }
    requires form { shown.now.names.form ≡ Quoted }
    requires facts { TellSame (facts_of table.now) (known_facts (known_of shown.now) analysis) point }
    requires point { point < point_count shown.now.found.graph.now }
    requires there { point < length table.now.paths }
    ensures { Writes K.Sink out.old out.new (facts_field shown.now.found.graph.now (known_of shown.now) point analysis) }
{
    let bits = shown.found.graph.bits(analysis);
    out.write(b",\"");
    out.write(analysis_name(analysis));
    out.write(b"\":{\"path\":");
    write_boolean(out, table.has_path(point));
    out.write(b",\"bits\":");
    write_array(out, &shown.names.numbers, table, point, bits);
    out.write(b",\"names\":");
    write_array(out, shown.names(analysis), table, point, bits);
    out.write(b"}");
}

// Writes it where the analysis is chosen.
fn write_facts_field_if<K: Sink>(
    shown: &ViewProgram<'_>,
    out: &mut Pieces<'_, K>,
    point: u32,
    analysis: Analysis,
)
    requires ready { CanWrite K.Sink out.old }
    requires shown { AreShown shown.now }
    requires form { shown.now.names.form ≡ Quoted }
    requires point { point < point_count shown.now.found.graph.now }
    requires shows { IsShownPoint shown.now point }
    ensures { Writes K.Sink out.old out.new
        (flat_map (facts_field shown.now.found.graph.now (known_of shown.now) point)
        (analysis_if (is_chosen shown.now.view.facts analysis) analysis)) }
{
    let Some(table) = shown.table(analysis) else {
        return;
    };
    write_facts_field(shown, out, table, point, analysis);
}

// Writes what the chosen analyses tell at a point.
fn write_facts_fields<K: Sink>(shown: &ViewProgram<'_>, out: &mut Pieces<'_, K>, point: u32)
    requires ready { CanWrite K.Sink out.old }
    requires shown { AreShown shown.now }
    requires form { shown.now.names.form ≡ Quoted }
    requires point { point < point_count shown.now.found.graph.now }
    requires shows { IsShownPoint shown.now point }
    ensures { Writes K.Sink out.old out.new
        (flat_map (facts_field shown.now.found.graph.now (known_of shown.now) point) (chosen_analyses shown.now.view.facts)) }
{
    for analysis in Analysis::ALL {
        write_facts_field_if(shown, out, point, analysis);
    }
}

/// Writes the labels of a point, its statement, whether it is doubtful, and its edges.
pub(crate) fn write_point_parts<K: Sink>(
    shown: &ViewProgram<'_>,
    out: &mut Pieces<'_, K>,
    point: u32,
)
    requires ready { CanWrite K.Sink out.old }
    requires shown { AreShown shown.now }
    requires point { point < point_count shown.now.found.graph.now }
    ensures { Writes K.Sink out.old out.new (point_parts shown.now.found.graph.now (known_of shown.now) point) }
{
    let outline = PointOutline {
        graph: shown.found.graph,
        point,
        edges: shown.edges(point),
        doubtful: shown.is_doubtful(point),
    };
    write_point_fields(out, &outline);
}

/// Writes the last line.
///
/// The condition: it is one program that is shown.
pub fn write_end<K: Sink>(shown: &ViewProgram<'_>, out: &mut Pieces<'_, K>)
    requires ready { CanWrite K.Sink out.old }
    requires shown { AreShown shown.now }
    ensures { Writes K.Sink out.old out.new (end_line shown.now.found.graph.now shown.now.view) }
{
    let points = shown_points(shown.found.graph, shown.view.procedure);
    out.write(b"{\"type\":\"end\",\"points\":");
    write_number(out, points.end - points.first);
    out.write(b"}\n");
}

/// Writes the lines of JSON but for the first and the last, the remarks in a form of their own.
///
/// The conditions: it is one program that is shown, and the names of its bits are quoted.
pub fn write_sets<F: RemarkForm, K: Sink>(
    shown: &ViewProgram<'_>,
    form: &F,
    out: &mut Pieces<'_, K>,
)
    requires ready { CanWrite K.Sink out.old }
    requires shown { AreShown shown.now }
    requires form { shown.now.names.form ≡ Quoted }
    ensures { Writes K.Sink out.old out.new (sets_with (F.text form.now) shown.now.found.graph.now (known_of shown.now) shown.now.view) }
{
    shown.write_all_points(&JsonPoints, out);
    shown.write_all_points(&JsonRemarks { form }, out);
}

// A point as a line.
#[derive(Clone, Copy)]
struct JsonPoints;

impl PointForm for JsonPoints {
    ghost name_form = { λ _. Quoted };

    ghost text = { λ _ shown point. point_line shown.found.graph.now (known_of shown) shown.view.facts point };

    fn write_point<K: Sink>(&self, out: &mut Pieces<'_, K>, shown: &ViewProgram<'_>, point: u32) {
        if out.has_failed() {
            return;
        }
        write_point_place(out, shown.found.graph, point);
        write_place(out, shown.found.graph, point);
        write_point_parts(shown, out, point);
        write_facts_fields(shown, out, point);
        out.write(b"}\n");
    }
}

/// The remarks on a point, each in a form.
#[derive(Clone, Copy)]
pub(crate) struct JsonRemarks<'f, F> {
    pub(crate) form: &'f F,
}

impl<F: RemarkForm> PointForm for JsonRemarks<'_, F> {
    ghost name_form = { λ _. Quoted };

    ghost text = { λ remarks shown point.
        flat_map (F.text remarks.form.now shown.found.graph.now point) (remarks_at shown.found.graph.now (known_of shown) point) };

    fn write_point<K: Sink>(&self, out: &mut Pieces<'_, K>, shown: &ViewProgram<'_>, point: u32) {
        shown.write_remarks_at(self.form, out, point);
    }
}

/// The flow graph of a program with its facts, for tools: one object of JSON a line, in a fixed layout. First the
/// program, then each point in order, then each remark of the report in its order, and last a line that ends it:
///
///     {"type":"program","version":1,"points":2,"procedures":["main"],"variables":["x","y"],"definitions":3,"expressions":1}
///     {"type":"point","point":0,"procedure":"main","place":0,"line":2,"first":11,"last":19,"labels":[],"statement":"x = x + y",
///      "doubtful":false,"edges":[{"kind":"step","to":1}]}
///     {"type":"remark","point":0,"line":2,"first":11,"last":19,"kind":"dead","variable":"x"}
///     {"type":"end","points":2}
///
/// - `line`, `first` and `last` are the statement's line and the places of its first and its last byte in the whole text, each from
///   1; labels do not count. At a procedure's end they and `statement` are null. `labels` are the names of the labels that stand for the point.
/// - `doubtful` is true where what follows may never end.
/// - An edge is a `step`, a `call` or a `return`; the latter two have the point of the call, `site`. `to` is the point where it leads. Each of
///   the two steps of a test says how it comes out then, `when`.
/// - Behind the edges stand `reach`, `live`, `avail` and `busy` as they are chosen, each
///   `{"path":BOOLEAN,"bits":[NUMBER..],"names":[STRING..]}`: whether some valid path is there, and the set by number and by name.
/// - The kinds of remarks are `never_reached`, `unset` and `dead` with a `variable`, `computed` and `busy` with an `expression`.
/// - The last line says how many points were told.
///
/// Procedures, variables and bits stand in the order of their numbers. Where one procedure is shown, the lines of the other points
/// and remarks are left out, and nothing else.
///
/// The work is linear in the program, its edges, the text, and the words of the chosen analyses' sets and of the tests' sets of
/// very busy expressions.
#[derive(Drop)]
pub struct JsonText<'a> {
    shown: ViewProgram<'a>,
}

impl<'a> Model for JsonText<'a> {
    ghost use Rattle.std.specs.Prelude.{◌≡◌};
    ghost use Rattle.flow_views.specs.code.ViewProgram.{AreShown, known_of};
    ghost use Rattle.flow_views.specs.declared.names.NameForm.TheVariants.{Quoted};
    ghost use Rattle.flow_views.specs.Json.{program_line};
    ghost use Rattle.json_texts.specs.code.Lined.{set_lines};
    ghost use Rattle.source_lines.specs.SourceLines.{Lined};

    ghost Value = { Lined };

    ghost view = { λ text. record {
      first = program_line text.shown.found.graph.now;
      others = set_lines text.shown.found.graph.now (known_of text.shown) text.shown.view;
    } };

    ghost invariant = { λ text. AreShown text.shown × (text.shown.names.form ≡ Quoted) };
}

impl<'a> JsonText<'a> {
    /// The lines, ready to be written.
    ///
    /// The conditions: the answers to what a report asks and the tables are of this graph, these of the analyses that are shown, and the
    /// procedure that is shown is one of its program. Fails only where memory runs out.
    pub fn of(
        alloc: Global,
        graph: &'a Graph<'a>,
        tables: &'a ViewTables,
        answers: &'a ReportAnswers,
        view: View,
    ) -> Result<JsonText<'a>, OutOfMemory>
        requires tables { AreViewTables graph.now view tables.now }
        requires answers { TellReport graph.now answers.now }
        requires procedure { IfSome view.procedure (λ procedure. procedure < length graph.now.procedure_names) }
        ensures first { IfOk result (λ lined. lined.first ≡ program_line graph.now) }
        ensures lines { IfOk result (λ lined. IsJson graph.now view (all_of_lined lined)) }
    {
        let shown = ViewProgram::of(alloc, graph, tables, answers, view, NameForm::Quoted)?;
        Ok(JsonText { shown })
    }
}

impl<'a> LinedText for JsonText<'a> {
    ghost first = { λ lined. lined.first };

    ghost others = { λ lined. lined.others };

    fn write_first<K: Sink>(&self, out: &mut Pieces<'_, K>) {
        write_program(out, self.shown.found.graph);
    }

    fn write_others<K: Sink>(&self, out: &mut Pieces<'_, K>) {
        write_sets(&self.shown, &JsonLine, out);
        write_end(&self.shown, out);
    }
}
