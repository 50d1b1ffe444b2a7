// Lines of JSON whose facts are differences.

ghost use Rattle.std.specs.Prelude.{◌≡◌, ℕ, ◌<◌, ◌≤◌, ◌&&◌, [], codes, filter, map, flat_map, length, true, IfOk, IfSome, if◌then◌else◌};
ghost use Rattle.std.specs.List.{range_with_len};
ghost use Rattle.doubt_origins.specs.Origins.{origins_in};
ghost use Rattle.flow_graph.specs.Points.{point_count};
ghost use Rattle.flow_graph.specs.declared.analysis.Analysis.TheVariants.{Busy};
ghost use Rattle.flow_reports.specs.Reports.{remarks_at};
ghost use Rattle.report_answers.specs.Statements.{is_test as is_test_of};
ghost use Rattle.report_answers.specs.code.Reported.{TellReport};
ghost use Rattle.flow_team.specs.Tables.{facts_of};
ghost use Rattle.flow_texts.specs.Tables.{bits_at};
ghost use Rattle.flow_views.specs.Json.{joined, remark_object};
ghost use Rattle.flow_views.specs.ViewTables.{AreViewTables};
ghost use Rattle.flow_views.specs.Views.{analysis_if, chosen_analyses, is_chosen, known_facts};
ghost use Rattle.flow_views.specs.code.ViewProgram.{AreShown, IsShownPoint, IsShownTable, known_of};
ghost use Rattle.flow_views.specs.declared.names.NameForm.TheVariants.{Quoted};
ghost use Rattle.json_texts.specs.Changes.{IsJsonChanges, behind_changes, busy_line, busy_object, change_fields, changed_point_line, changed_remarks};
ghost use Rattle.json_texts.specs.Changes.{changes_field, doubted_parts, leads_to_field, named_program_line, names_field, remark_alone};
ghost use Rattle.json_texts.specs.Changes.{very_busy};
ghost use Rattle.json_texts.specs.code.Lined.{differences_with};
ghost use Rattle.json_texts.specs.code.Tells.{tells_busy, tests_at};
ghost use Rattle.source_lines.specs.SourceLines.{all_of_lined};
ghost use Rattle.point_sets.specs.Changes.{set_ahead};
ghost use Rattle.point_sets.specs.Sets.{behind, has_behind};
ghost use Rattle.point_sets.specs.code.Changes.{IsChange, old_set, told_by};
ghost use Rattle.text_pieces.specs.Pieces.{CanWrite, Writes};
ghost use Rattle.text_pieces.specs.code.Lists.{some_stand, text_at};
ghost use Rattle.tac_program.specs.Programs.{Program};

use crate::OutOfMemory;
use crate::differences::write_changed;
use crate::json::{JsonLine, JsonRemarks, write_array, write_end};
use crate::outlines::{
    PointOutline, write_boolean, write_edges_out, write_place, write_point_front,
    write_point_place, write_program_head,
};
use doubt_origins::{doubt_origins, origin_at};
use flow_graph::{Analysis, Graph};
use flow_reports::{Findings, Remark, RemarkForm};
use flow_team::Table;
use flow_texts::write_number;
use flow_views::{NameForm, PointForm, View, ViewProgram, ViewTables, analysis_name};
use json_statements::{write_definitions, write_expressions, write_parts_fields};
use point_sets::{Change, Side, has_behind};
use report_answers::ReportAnswers;
use source_lines::LinedText;
use std::alloc::Global;
use std::marker::Model;
use tac_program::StmtKind;
use text_pieces::{Pieces, Sink, TextBlock};

// Writes what came and what went.
fn write_change<K: Sink>(shown: &ViewProgram<'_>, out: &mut Pieces<'_, K>, change: &Change<'_>)
    requires ready { CanWrite K.Sink out.old }
    requires shown { AreShown shown.now }
    requires form { shown.now.names.form ≡ Quoted }
    requires change { IsChange change.now }
    requires graph { change.now.new.graph.now ≡ shown.now.found.graph.now }
    ensures { Writes K.Sink out.old out.new
        (change_fields shown.now.found.graph.now change.now.new.table.now.analysis (old_set change.now) (told_by change.now.new)) }
{
    let bits = shown.found.graph.bits(change.new.table.analysis());
    out.write(b"\"came\":");
    write_changed(out, &shown.names.numbers, change, true, bits);
    out.write(b",\"went\":");
    write_changed(out, &shown.names.numbers, change, false, bits);
}

// Writes what changed between the point before and this one.
fn write_point_change<K: Sink>(
    shown: &ViewProgram<'_>,
    out: &mut Pieces<'_, K>,
    table: &Table,
    point: u32,
)
    requires ready { CanWrite K.Sink out.old }
    requires shown { AreShown shown.now }
    requires form { shown.now.names.form ≡ Quoted }
    requires table { IsShownTable shown.now table.now }
    requires point { point < point_count shown.now.found.graph.now }
    requires shows { IsShownPoint shown.now point }
    ensures { Writes K.Sink out.old out.new (change_fields shown.now.found.graph.now table.now.analysis
        (set_ahead shown.now.found.graph.now (known_facts (known_of shown.now) table.now.analysis) point)
        ((known_facts (known_of shown.now) table.now.analysis).contains point)) }
{
    let change = shown.change(table, point, Side::Before);
    write_change(shown, out, &change);
}

// Writes what a statement that is no call changes.
fn write_statement_change<K: Sink>(
    shown: &ViewProgram<'_>,
    out: &mut Pieces<'_, K>,
    table: &Table,
    point: u32,
)
    requires ready { CanWrite K.Sink out.old }
    requires shown { AreShown shown.now }
    requires form { shown.now.names.form ≡ Quoted }
    requires table { IsShownTable shown.now table.now }
    requires point { point < point_count shown.now.found.graph.now }
    requires shows { IsShownPoint shown.now point }
    requires behind { has_behind shown.now.found.graph.now point ≡ true }
    ensures { Writes K.Sink out.old out.new (change_fields shown.now.found.graph.now table.now.analysis
        ((known_facts (known_of shown.now) table.now.analysis).contains point)
        (behind shown.now.found.graph.now table.now.analysis (known_facts (known_of shown.now) table.now.analysis) point)) }
{
    let change = shown.change(table, point, Side::Behind);
    write_change(shown, out, &change);
}

// Writes what the statement at a point changes; null at a call and at a procedure's end.
fn write_behind_changes<K: Sink>(
    shown: &ViewProgram<'_>,
    out: &mut Pieces<'_, K>,
    table: &Table,
    point: u32,
)
    requires ready { CanWrite K.Sink out.old }
    requires shown { AreShown shown.now }
    requires form { shown.now.names.form ≡ Quoted }
    requires table { IsShownTable shown.now table.now }
    requires point { point < point_count shown.now.found.graph.now }
    requires shows { IsShownPoint shown.now point }
    ensures { Writes K.Sink out.old out.new
        (behind_changes shown.now.found.graph.now table.now.analysis (known_facts (known_of shown.now) table.now.analysis) point) }
{
    if !has_behind(shown.found.graph, point) {
        out.write(b"null");
        return;
    }
    out.write(b"{");
    write_statement_change(shown, out, table, point);
    out.write(b"}");
}

// Writes what an analysis tells at a point, as changes.
fn write_changes_field<K: Sink>(
    shown: &ViewProgram<'_>,
    out: &mut Pieces<'_, K>,
    table: &Table,
    point: u32,
)
    requires ready { CanWrite K.Sink out.old }
    requires shown { AreShown shown.now }
    requires form { shown.now.names.form ≡ Quoted }
    requires table { IsShownTable shown.now table.now }
    requires point { point < point_count shown.now.found.graph.now }
    requires shows { IsShownPoint shown.now point }
    ensures { Writes K.Sink out.old out.new (changes_field shown.now.found.graph.now (known_of shown.now) point table.now.analysis) }
{
    out.write(b",\"");
    out.write(analysis_name(table.analysis()));
    out.write(b"\":{\"path\":");
    write_boolean(out, table.has_path(point));
    out.write(b",");
    write_point_change(shown, out, table, point);
    out.write(b",\"behind\":");
    write_behind_changes(shown, out, table, point);
    out.write(b"}");
}

// Writes it where the analysis is chosen.
fn write_changes_field_if<K: Sink>(
    shown: &ViewProgram<'_>,
    out: &mut Pieces<'_, K>,
    point: u32,
    analysis: Analysis,
)
    requires ready { CanWrite K.Sink out.old }
    requires shown { AreShown shown.now }
    requires form { shown.now.names.form ≡ Quoted }
    requires point { point < point_count shown.now.found.graph.now }
    requires shows { IsShownPoint shown.now point }
    ensures { Writes K.Sink out.old out.new
        (flat_map (changes_field shown.now.found.graph.now (known_of shown.now) point)
        (analysis_if (is_chosen shown.now.view.facts analysis) analysis)) }
{
    let Some(table) = shown.table(analysis) else {
        return;
    };
    write_changes_field(shown, out, table, point);
}

// Writes what the chosen analyses tell at a point, as changes.
fn write_changes_fields<K: Sink>(shown: &ViewProgram<'_>, out: &mut Pieces<'_, K>, point: u32)
    requires ready { CanWrite K.Sink out.old }
    requires shown { AreShown shown.now }
    requires form { shown.now.names.form ≡ Quoted }
    requires point { point < point_count shown.now.found.graph.now }
    requires shows { IsShownPoint shown.now point }
    ensures { Writes K.Sink out.old out.new
        (flat_map (changes_field shown.now.found.graph.now (known_of shown.now) point) (chosen_analyses shown.now.view.facts)) }
{
    for analysis in Analysis::ALL {
        write_changes_field_if(shown, out, point, analysis);
    }
}

// Writes the first texts of a block, with commas between them.
fn write_all<K: Sink>(out: &mut Pieces<'_, K>, texts: &TextBlock, count: u32)
    requires ready { CanWrite K.Sink out.old }
    requires commas { texts.now.between ≡ codes "," }
    requires count { count ≤ length texts.now.texts }
    ensures { Writes K.Sink out.old out.new (joined (codes ",") (map (text_at texts.now.texts) (range_with_len 0 count))) }
{
    if count == 0 {
        return;
    }
    out.write(texts.range(0, count as usize, false));
}

// Writes what the bits of an analysis are called.
fn write_names_field<K: Sink>(shown: &ViewProgram<'_>, out: &mut Pieces<'_, K>, analysis: Analysis)
    requires ready { CanWrite K.Sink out.old }
    requires shown { AreShown shown.now }
    requires form { shown.now.names.form ≡ Quoted }
    ensures { Writes K.Sink out.old out.new (names_field shown.now.found.graph.now analysis) }
{
    out.write(b"[");
    write_all(out, shown.names(analysis), shown.found.graph.bits(analysis));
    out.write(b"]");
}

/// Writes the line of the program, with what its bits are called, and what definitions and expressions are made of.
///
/// The conditions: it is one program that is shown, and the names of its bits are quoted.
pub fn write_named_program<K: Sink>(shown: &ViewProgram<'_>, out: &mut Pieces<'_, K>)
    requires ready { CanWrite K.Sink out.old }
    requires shown { AreShown shown.now }
    requires form { shown.now.names.form ≡ Quoted }
    ensures { Writes K.Sink out.old out.new (named_program_line shown.now.found.graph.now) }
{
    write_program_head(out, shown.found.graph);
    out.write(b",\"definition_names\":");
    write_names_field(shown, out, Analysis::Reach);
    out.write(b",\"expression_names\":");
    write_names_field(shown, out, Analysis::Avail);
    out.write(b",\"definition_parts\":");
    write_definitions(out, shown.found.graph);
    out.write(b",\"expression_parts\":");
    write_expressions(out, shown.found.graph);
    out.write(b"}\n");
}

// Whether a statement is a test.
fn is_test(kind: &StmtKind) -> bool
    ensures { result ≡ is_test_of kind.now }
{
    match kind {
        StmtKind::Copy { .. } => false,
        StmtKind::Unary { .. } => false,
        StmtKind::Binary { .. } => false,
        StmtKind::Goto { .. } => false,
        StmtKind::If { .. } => true,
        StmtKind::IfFalse { .. } => true,
        StmtKind::IfCompare { .. } => true,
        StmtKind::Call { .. } => false,
        StmtKind::Return => false,
        StmtKind::Read { .. } => false,
        StmtKind::Print { .. } => false,
        StmtKind::Skip => false,
    }
}

// Whether a test stands at a point.
fn tests_at(graph: &Graph<'_>, point: u32) -> bool
    requires { point < point_count graph.now }
    ensures { result ≡ tests_at graph.now point }
{
    match graph.stmt(point) {
        Some(stmt) => is_test(&stmt.kind),
        None => false,
    }
}

// Whether some valid path leads to a point.
fn is_reached(shown: &ViewProgram<'_>, point: u32) -> bool
    requires shown { AreShown shown.now }
    requires point { point < point_count shown.now.found.graph.now }
    ensures { result ≡ (known_of shown.now).reach.has_path point }
{
    shown.found.is_reached(point)
}

// Whether it is told which expressions are very busy: at a test that is reached and not doubtful.
fn tells_busy(shown: &ViewProgram<'_>, point: u32) -> bool
    requires shown { AreShown shown.now }
    requires point { point < point_count shown.now.found.graph.now }
    ensures { result ≡ tells_busy shown.now.found.graph.now (known_of shown.now) point }
{
    tests_at(shown.found.graph, point) && (is_reached(shown, point) && !shown.is_doubtful(point))
}

// Whether a point's set has any of the bits before one.
fn has_some(table: &Table, point: u32, bits: u32) -> bool
    requires point { point < length table.now.paths }
    requires bits { bits ≤ table.now.bits }
    ensures { result ≡ some_stand (filter ((facts_of table.now).contains point) (range_with_len 0 bits)) }
{
    for bit in 0..bits {
        if table.contains(point, bit) {
            return true;
        }
    }
    false
}

// Writes the line of the expressions that are very busy at a point.
fn write_busy_object<K: Sink>(
    shown: &ViewProgram<'_>,
    out: &mut Pieces<'_, K>,
    table: &Table,
    point: u32,
)
    requires ready { CanWrite K.Sink out.old }
    requires shown { AreShown shown.now }
    requires form { shown.now.names.form ≡ Quoted }
    requires table { IsShownTable shown.now table.now }
    requires busy { table.now.analysis ≡ Busy }
    requires point { point < point_count shown.now.found.graph.now }
    requires shows { IsShownPoint shown.now point }
    ensures { Writes K.Sink out.old out.new (busy_object shown.now.found.graph.now point
        (bits_at shown.now.found.graph.now Busy (known_of shown.now).busy point)) }
{
    let graph = shown.found.graph;
    out.write(b"{\"type\":\"remark\",\"point\":");
    write_number(out, point);
    write_place(out, graph, point);
    out.write(b",\"kind\":\"busy\",\"expressions\":");
    write_array(
        out,
        &shown.names.numbers,
        table,
        point,
        graph.bits(Analysis::Busy),
    );
    out.write(b"}\n");
}

// Whether remarks tell that some expression is very busy at a point.
fn has_busy(shown: &ViewProgram<'_>, table: &Table, point: u32) -> bool
    requires shown { AreShown shown.now }
    requires table { IsShownTable shown.now table.now }
    requires busy { table.now.analysis ≡ Busy }
    requires point { point < point_count shown.now.found.graph.now }
    requires shows { IsShownPoint shown.now point }
    ensures { result ≡ (tells_busy shown.now.found.graph.now (known_of shown.now) point
        && some_stand (bits_at shown.now.found.graph.now Busy (known_of shown.now).busy point)) }
{
    let bits = shown.found.graph.bits(Analysis::Busy);
    tells_busy(shown, point) && has_some(table, point, bits)
}

// Writes that line, where there are any.
fn write_busy_line<K: Sink>(
    shown: &ViewProgram<'_>,
    out: &mut Pieces<'_, K>,
    table: &Table,
    point: u32,
)
    requires ready { CanWrite K.Sink out.old }
    requires shown { AreShown shown.now }
    requires form { shown.now.names.form ≡ Quoted }
    requires table { IsShownTable shown.now table.now }
    requires busy { table.now.analysis ≡ Busy }
    requires point { point < point_count shown.now.found.graph.now }
    requires shows { IsShownPoint shown.now point }
    ensures { Writes K.Sink out.old out.new (busy_line shown.now.found.graph.now point
        (flat_map very_busy (remarks_at shown.now.found.graph.now (known_of shown.now) point))) }
{
    if !has_busy(shown, table, point) {
        return;
    }
    write_busy_object(shown, out, table, point);
}

// Writes it where the facts of very busy expressions are shown.
fn write_busy_line_if<K: Sink>(shown: &ViewProgram<'_>, out: &mut Pieces<'_, K>, point: u32)
    requires ready { CanWrite K.Sink out.old }
    requires shown { AreShown shown.now }
    requires form { shown.now.names.form ≡ Quoted }
    requires point { point < point_count shown.now.found.graph.now }
    requires shows { IsShownPoint shown.now point }
    ensures { Writes K.Sink out.old out.new (if shown.now.view.facts.busy then busy_line shown.now.found.graph.now point
        (flat_map very_busy (remarks_at shown.now.found.graph.now (known_of shown.now) point)) else []) }
{
    let Some(table) = shown.table(Analysis::Busy) else {
        return;
    };
    write_busy_line(shown, out, table, point);
}

// Whether a remark stands in a line with others.
fn stands_together(together: bool, remark: Remark) -> bool
    ensures { (program : Program) (point : ℕ)
        → remark_alone together program point remark ≡ (if result then [] else remark_object program point remark) }
{
    match remark {
        Remark::NeverReached => false,
        Remark::Unset { .. } => false,
        Remark::Computed { .. } => false,
        Remark::VeryBusy { .. } => together,
        Remark::Dead { .. } => false,
    }
}

// A remark as an object, where it does not stand with others.
#[derive(Clone, Copy)]
struct AloneLine {
    together: bool,
}

impl RemarkForm for AloneLine {
    ghost text = { λ line program point remark. remark_alone line.together program point remark };

    fn write_remark<K: Sink>(
        &self,
        out: &mut Pieces<'_, K>,
        found: &Findings<'_>,
        point: u32,
        remark: Remark,
    ) {
        if stands_together(self.together, remark) {
            return;
        }
        JsonLine.write_remark(out, found, point, remark);
    }
}

// Writes where the doubt of a point comes from.
fn write_leads_to<K: Sink>(out: &mut Pieces<'_, K>, origin: Option<u32>)
    requires { CanWrite K.Sink out.old }
    ensures { Writes K.Sink out.old out.new (leads_to_field origin) }
{
    match origin {
        Some(origin) => {
            out.write(b",\"leads_to\":");
            write_number(out, origin);
        },
        None => out.write(b",\"leads_to\":null"),
    }
}

// Writes the labels of a point, its statement, whether it is doubtful and where that comes from, and its edges.
fn write_doubted_parts<K: Sink>(
    shown: &ViewProgram<'_>,
    out: &mut Pieces<'_, K>,
    point: u32,
    origin: Option<u32>,
)
    requires ready { CanWrite K.Sink out.old }
    requires shown { AreShown shown.now }
    requires point { point < point_count shown.now.found.graph.now }
    ensures { Writes K.Sink out.old out.new (doubted_parts origin shown.now.found.graph.now (known_of shown.now) point) }
{
    let outline = PointOutline {
        graph: shown.found.graph,
        point,
        edges: shown.edges(point),
        doubtful: shown.is_doubtful(point),
    };
    write_point_front(out, &outline);
    write_leads_to(out, origin);
    out.write(b",\"edges\":");
    write_edges_out(out, &outline);
}

// A point as a line, with where the doubt of each point comes from.
#[derive(Clone, Copy)]
struct ChangedPoints<'o> {
    origins: &'o [Option<u32>],
}

impl PointForm for ChangedPoints<'_> {
    ghost name_form = { λ _. Quoted };

    ghost text = { λ form shown point.
        changed_point_line (origins_in form.origins.now) shown.found.graph.now (known_of shown) shown.view.facts point };

    fn write_point<K: Sink>(&self, out: &mut Pieces<'_, K>, shown: &ViewProgram<'_>, point: u32) {
        if out.has_failed() {
            return;
        }
        write_point_place(out, shown.found.graph, point);
        write_place(out, shown.found.graph, point);
        write_doubted_parts(shown, out, point, origin_at(self.origins, point));
        write_parts_fields(out, shown.found.graph, point);
        write_changes_fields(shown, out, point);
        out.write(b"}\n");
    }
}

// The remarks on a point.
#[derive(Clone, Copy)]
struct ChangedRemarks;

impl PointForm for ChangedRemarks {
    ghost name_form = { λ _. Quoted };

    ghost text = { λ _ shown point. changed_remarks shown.found.graph.now (known_of shown) shown.view.facts point };

    fn write_point<K: Sink>(&self, out: &mut Pieces<'_, K>, shown: &ViewProgram<'_>, point: u32) {
        if out.has_failed() {
            return;
        }
        let form = AloneLine {
            together: shown.view.facts.busy,
        };
        shown.write_remarks_at(&form, out, point);
        write_busy_line_if(shown, out, point);
    }
}

/// Writes the lines of JSON with differences but for the first and the last, each remark in a line in a form of its own.
///
/// Beside each point stands where its doubt comes from (`doubt_origins`).
///
/// The conditions: it is one program that is shown, and the names of its bits are quoted.
pub fn write_differences<F: RemarkForm, K: Sink>(
    shown: &ViewProgram<'_>,
    origins: &[Option<u32>],
    form: &F,
    out: &mut Pieces<'_, K>,
)
    requires ready { CanWrite K.Sink out.old }
    requires shown { AreShown shown.now }
    requires form { shown.now.names.form ≡ Quoted }
    ensures { Writes K.Sink out.old out.new
        (differences_with (origins_in origins.now) (F.text form.now) shown.now.found.graph.now (known_of shown.now) shown.now.view) }
{
    shown.write_all_points(&ChangedPoints { origins }, out);
    shown.write_all_points(&JsonRemarks { form }, out);
}

/// The lines of JSON of [`JsonText`](crate::JsonText) with differences in place of sets:
///
///     {"type":"program","version":1,"points":2,"procedures":["main"],"variables":["x","y"],"definitions":3,"expressions":1,
///      "definition_names":["x@entry","y@entry","x@2"],"expression_names":["x + y"],
///      "definition_parts":[{"variable":0,"point":null},{"variable":1,"point":null},{"variable":0,"point":0}],
///      "expression_parts":[{"operator":"+","operands":[{"variable":0},{"variable":1}]}]}
///     {"type":"point","point":0,"procedure":"main","place":0,"line":2,"first":11,"last":19,"labels":[],"statement":"x = x + y",
///      "doubtful":false,"leads_to":null,"edges":[{"kind":"step","to":1}],
///      "parts":{"kind":"binary","target":0,"operator":"+","operands":[{"variable":0},{"variable":1}]},"start":10,"end":19,
///      "reach":{"path":true,"came":[0,1],"went":[],"behind":{"came":[2],"went":[0]}}}
///
/// - The first line has the names of all definitions and expressions, in the order of their numbers, and what they are made of: variables
///   and points by number, and no point of a definition that stands for the value at the beginning.
/// - `leads_to` is null where the point is not doubtful, else a point to which some path leads from it, and from which no valid path leads to
///   the end of `main`.
/// - `parts` is what the statement is made of, likewise; where a jump leads `edges` tell. `start` and `end` are its bytes in the text, from 0,
///   the first and the one behind the last. At a procedure's end they are null.
/// - `came` and `went` are the numbers of the bits that hold there and did not at the point before in the same procedure, and of those that
///   held there and do no more. At the first point of a procedure all that holds came.
/// - `behind` has so those that hold behind the statement and not before it, and the other way round. It is null at a call and at a
///   procedure's end.
/// - Where the facts `busy` are shown, the remarks of very busy expressions at a point are one line, with their numbers as `expressions`.
///
/// Else it is as [`JsonText`](crate::JsonText) says. The work grows with the bits of the chosen analyses at each point.
#[derive(Drop)]
pub struct JsonChangesText<'a> {
    origins: Vec<Option<u32>>,
    shown: ViewProgram<'a>,
}

impl<'a> Model for JsonChangesText<'a> {
    ghost use Rattle.std.specs.Prelude.{◌≡◌};
    ghost use Rattle.flow_views.specs.code.ViewProgram.{AreShown, known_of};
    ghost use Rattle.flow_views.specs.declared.names.NameForm.TheVariants.{Quoted};
    ghost use Rattle.doubt_origins.specs.Origins.{origins_in};
    ghost use Rattle.json_texts.specs.Changes.{named_program_line};
    ghost use Rattle.json_texts.specs.code.Lined.{difference_lines};
    ghost use Rattle.source_lines.specs.SourceLines.{Lined};

    ghost Value = { Lined };

    ghost view = { λ text. record {
      first = named_program_line text.shown.found.graph.now;
      others = difference_lines (origins_in text.origins.items) text.shown.found.graph.now (known_of text.shown) text.shown.view;
    } };

    ghost invariant = { λ text. AreShown text.shown × (text.shown.names.form ≡ Quoted) };
}

impl<'a> JsonChangesText<'a> {
    /// The lines, ready to be written.
    ///
    /// The conditions: the answers to what a report asks and the tables are of this graph, these of the analyses that are shown, and the
    /// procedure that is shown is one of its program. Fails only where memory runs out.
    pub fn of(
        alloc: Global,
        graph: &'a Graph<'a>,
        tables: &'a ViewTables,
        answers: &'a ReportAnswers,
        view: View,
    ) -> Result<JsonChangesText<'a>, OutOfMemory>
        requires tables { AreViewTables graph.now view tables.now }
        requires answers { TellReport graph.now answers.now }
        requires procedure { IfSome view.procedure (λ procedure. procedure < length graph.now.procedure_names) }
        ensures first { IfOk result (λ lined. lined.first ≡ named_program_line graph.now) }
        ensures lines { IfOk result (λ lined. IsJsonChanges graph.now view (all_of_lined lined)) }
    {
        let origins = doubt_origins(alloc, graph, answers)?;
        let shown = ViewProgram::of(alloc, graph, tables, answers, view, NameForm::Quoted)?;
        Ok(JsonChangesText { origins, shown })
    }
}

impl<'a> LinedText for JsonChangesText<'a> {
    ghost first = { λ lined. lined.first };

    ghost others = { λ lined. lined.others };

    fn write_first<K: Sink>(&self, out: &mut Pieces<'_, K>) {
        write_named_program(&self.shown, out);
    }

    fn write_others<K: Sink>(&self, out: &mut Pieces<'_, K>) {
        let points = ChangedPoints {
            origins: self.origins.as_slice(),
        };
        self.shown.write_all_points(&points, out);
        self.shown.write_all_points(&ChangedRemarks, out);
        write_end(&self.shown, out);
    }
}
