// Lines of JSON with paths and with what stands around remarks.

ghost use Rattle.std.specs.Prelude.{◌≡◌, ◌<◌, ◌++◌, All, codes, flat_map, length, map, IfOk, IfSome};
ghost use Rattle.doubt_origins.specs.Origins.{origins_in};
ghost use Rattle.flow_graph.specs.Points.{point_count};
ghost use Rattle.report_answers.specs.code.Reported.{TellReport};
ghost use Rattle.flow_views.specs.ViewTables.{AreViewTables};
ghost use Rattle.flow_views.specs.code.ViewProgram.{AreShown, known_of};
ghost use Rattle.flow_views.specs.declared.names.NameForm.TheVariants.{Quoted};
ghost use Rattle.flow_views.specs.Json.{array, boolean, edge_object};
ghost use Rattle.flow_paths.specs.Doubts.{doubt_line};
ghost use Rattle.flow_paths.specs.Paths.{IsJsonWithPaths, hop_object, path_field, remark_with_path};
ghost use Rattle.flow_paths.specs.Sets.{names, number_or_null, numbers, set_fields};
ghost use Rattle.flow_paths.specs.code.Arounds.{around_at, sets_of};
ghost use Rattle.flow_paths.specs.code.Lined.{first_line, rest_with};
ghost use Rattle.flow_paths.specs.code.UnsetPaths.{AreWitnessesOf, hops_at};
ghost use Rattle.source_lines.specs.SourceLines.{all_of_lined};
ghost use Rattle.text_pieces.specs.Pieces.{CanWrite, Writes};

use crate::OutOfMemory;
use crate::arounds::Arounds;
use crate::doubts::Doubt;
use crate::facts::Facts;
use crate::hop_objects::write_hops;
use crate::set_fields::{
    write_boolean, write_edges, write_number_or_null, write_numbers, write_variable,
    write_variables,
};
use crate::surroundings::{Surroundings, surroundings_of};
use crate::unset_paths::UnsetPaths;
use doubt_origins::doubt_origins;
use flow_graph::Graph;
use flow_reports::{Findings, Remark, RemarkForm};
use flow_texts::{line, write_number};
use flow_views::{NameForm, View, ViewProgram, ViewTables};
use json_texts::{
    write_differences, write_end, write_named_program, write_program, write_remark_head, write_sets,
};
use report_answers::ReportAnswers;
use source_lines::LinedText;
use std::alloc::Global;
use std::marker::Model;
use tac_program::Program;
use text_pieces::{Pieces, Sink};

// Writes what stands around a line that is never reached.
fn write_last_reached<K: Sink>(out: &mut Pieces<'_, K>, facts: &Facts<'_>)
    requires { CanWrite K.Sink out.old }
    ensures { Writes K.Sink out.old out.new (codes ",\"last_reached\":" ++ number_or_null facts.now.last
        ++ codes ",\"edges\":" ++ array (map edge_object facts.now.edges.now)) }
{
    out.write(b",\"last_reached\":");
    write_number_or_null(out, facts.last);
    out.write(b",\"edges\":");
    write_edges(out, facts.edges);
}

// Writes what stands around an expression that is computed already.
fn write_last_evaluations<K: Sink>(out: &mut Pieces<'_, K>, program: &Program, facts: &Facts<'_>)
    requires { CanWrite K.Sink out.old }
    ensures { Writes K.Sink out.old out.new (codes ",\"last_evaluations\":" ++ numbers facts.now.met.now
        ++ codes ",\"holders\":" ++ names program.now facts.now.holders.now) }
{
    out.write(b",\"last_evaluations\":");
    write_numbers(out, facts.met);
    out.write(b",\"holders\":");
    write_variables(out, program, facts.holders);
}

// Writes what stands around a very busy expression.
fn write_next_evaluations<K: Sink>(out: &mut Pieces<'_, K>, facts: &Facts<'_>)
    requires { CanWrite K.Sink out.old }
    ensures { Writes K.Sink out.old out.new (codes ",\"next_evaluations\":" ++ numbers facts.now.met.now) }
{
    out.write(b",\"next_evaluations\":");
    write_numbers(out, facts.met);
}

// Writes what stands around a dead assignment.
fn write_next_writes<K: Sink>(out: &mut Pieces<'_, K>, facts: &Facts<'_>)
    requires { CanWrite K.Sink out.old }
    ensures { Writes K.Sink out.old out.new (codes ",\"next_writes\":" ++ numbers facts.now.met.now
        ++ codes ",\"may_end_unwritten\":" ++ boolean facts.now.may_end) }
{
    out.write(b",\"next_writes\":");
    write_numbers(out, facts.met);
    out.write(b",\"may_end_unwritten\":");
    write_boolean(out, facts.may_end);
}

// A remark as an object with its path and what stands around it.
#[derive(Clone, Copy)]
struct PathLine<'a> {
    paths: &'a UnsetPaths,
    arounds: &'a Arounds,
}

impl PathLine<'_> {
    // Writes the path of a variable's use.
    fn write_path<K: Sink>(&self, out: &mut Pieces<'_, K>, point: u32, variable: u32)
        requires { CanWrite K.Sink out.old }
        ensures { Writes K.Sink out.old out.new (codes ",\"path\":" ++ array (map hop_object (hops_at self.now.paths.now point variable))) }
    {
        out.write(b",\"path\":");
        write_hops(out, self.paths.hops(point, variable));
    }

    // Writes the path of a remark that has one.
    fn write_path_if<K: Sink>(&self, out: &mut Pieces<'_, K>, point: u32, remark: Remark)
        requires { CanWrite K.Sink out.old }
        ensures { Writes K.Sink out.old out.new (path_field (hops_at self.now.paths.now) point remark) }
    {
        match remark {
            Remark::NeverReached => {}
            Remark::Unset { variable } => self.write_path(out, point, variable),
            Remark::Computed { .. } => {}
            Remark::VeryBusy { .. } => {}
            Remark::Dead { .. } => {}
        }
    }

    // Writes what stands around a remark.
    fn write_sets<K: Sink>(
        &self,
        out: &mut Pieces<'_, K>,
        program: &Program,
        point: u32,
        remark: Remark,
    )
        requires { CanWrite K.Sink out.old }
        ensures { Writes K.Sink out.old out.new (set_fields (sets_of (around_at self.now.arounds.now)) program.now point remark) }
    {
        let facts = self.arounds.facts(point, remark);
        match remark {
            Remark::NeverReached => write_last_reached(out, &facts),
            Remark::Unset { .. } => {}
            Remark::Computed { .. } => write_last_evaluations(out, program, &facts),
            Remark::VeryBusy { .. } => write_next_evaluations(out, &facts),
            Remark::Dead { .. } => write_next_writes(out, &facts),
        }
    }
}

impl RemarkForm for PathLine<'_> {
    ghost text = { λ line program point remark.
        remark_with_path (hops_at line.paths.now) (sets_of (around_at line.arounds.now)) program point remark };

    fn write_remark<K: Sink>(
        &self,
        out: &mut Pieces<'_, K>,
        found: &Findings<'_>,
        point: u32,
        remark: Remark,
    ) {
        write_remark_head(out, found, point, remark);
        self.write_path_if(out, point, remark);
        self.write_sets(out, found.graph.program(), point, remark);
        out.write(b"}\n");
    }
}

// Writes the first line, with names of bits or without.
fn write_first_line<K: Sink>(shown: &ViewProgram<'_>, changes: bool, out: &mut Pieces<'_, K>)
    requires ready { CanWrite K.Sink out.old }
    requires shown { AreShown shown.now }
    requires form { shown.now.names.form ≡ Quoted }
    ensures { Writes K.Sink out.old out.new (first_line changes shown.now.found.graph.now) }
{
    if changes {
        write_named_program(shown, out);
    } else {
        write_program(out, shown.found.graph);
    }
}

// Writes the lines but for the first, doubts and the last one, with sets or with differences.
fn write_lines<K: Sink>(
    shown: &ViewProgram<'_>,
    origins: &[Option<u32>],
    form: &PathLine<'_>,
    changes: bool,
    out: &mut Pieces<'_, K>,
)
    requires ready { CanWrite K.Sink out.old }
    requires shown { AreShown shown.now }
    requires form { shown.now.names.form ≡ Quoted }
    ensures { Writes K.Sink out.old out.new (rest_with changes (origins_in origins.now)
        (remark_with_path (hops_at form.now.paths.now) (sets_of (around_at form.now.arounds.now)))
        shown.now.found.graph.now (known_of shown.now) shown.now.view) }
{
    if changes {
        write_differences(shown, origins, form, out);
    } else {
        write_sets(shown, form, out);
    }
}

/// The lines of JSON of [`JsonText`](json_texts::JsonText), or of [`JsonChangesText`](json_texts::JsonChangesText), in which each remark has
/// what stands around it, behind its other fields:
///
///     {"type":"remark","point":3,"line":5,"first":29,"last":35,"kind":"unset","variable":"x",
///      "path":[{"kind":"pass","site":0,"callee":1,"from":0,"to":1},..]}
///
/// - `unset`: `path`, the hops of a way on which some execution's beginning may bring the variable's value at the beginning there. A hop is a
///   `step`, a call that is left open (`enter`), or a call that is passed as a whole (`pass`), with the points where it begins, `from`, and
///   ends, `to`; calls have the point of the call, `site`, and a passed one the number of the procedure that is passed, `callee`. The first hop
///   begins at the entry of `main`, each at the end of the one before, and the last ends at the remark's point. No step on the way sets the
///   variable, and some path through each procedure that is passed does not.
/// - `dead`: `next_writes`, the points that write the variable first behind it, and `may_end_unwritten`, whether some way ends without one.
/// - `computed`: `last_evaluations`, the points that evaluated the expression last, and `holders`, the variables that hold its value.
/// - `busy`: `next_evaluations`, the points that evaluate the expression first.
/// - `never_reached`: `last_reached`, the nearest point before it in its procedure that is reached, or null, and the `edges` out of that.
///
/// Behind the remarks stands a line for each assignment that no path reads and that is not called dead since what follows may never end:
///
///     {"type":"doubt","point":0,"line":2,"variable":"x","doubt":4}
///
/// `doubt` is a point from which no valid path leads to the end of `main`, and to which some path from behind the assignment leads.
///
/// It takes one search for each variable of an `unset` remark that is shown. The hops are kept: some 24 bytes each, at most two for each point
/// and such remark. Each other remark takes a search for each statement that its sets may have, each linear in the program and its edges, and
/// some 150 bytes.
pub struct JsonPathsText<'a> {
    graph: &'a Graph<'a>,
    changes: bool,
    origins: Vec<Option<u32>>,
    shown: ViewProgram<'a>,
    paths: UnsetPaths,
    around: Surroundings,
}

impl<'a> Model for JsonPathsText<'a> {
    ghost use Rattle.std.specs.Prelude.{◌≡◌, ◌<◌, All};
    ghost use Rattle.doubt_origins.specs.Origins.{origins_in};
    ghost use Rattle.flow_graph.specs.Points.{point_count};
    ghost use Rattle.flow_views.specs.code.ViewProgram.{AreShown, known_of};
    ghost use Rattle.flow_views.specs.declared.names.NameForm.TheVariants.{Quoted};
    ghost use Rattle.flow_paths.specs.code.Arounds.{around_at, sets_of};
    ghost use Rattle.flow_paths.specs.code.Lined.{first_line, path_lines};
    ghost use Rattle.flow_paths.specs.code.UnsetPaths.{hops_at};
    ghost use Rattle.source_lines.specs.SourceLines.{Lined};

    ghost Value = { Lined };

    ghost view = { λ text. record {
      first = first_line text.changes text.shown.found.graph.now;
      others = path_lines text.changes (origins_in text.origins.items) (hops_at text.paths) (sets_of (around_at text.around.arounds))
          text.around.doubts.items text.shown.found.graph.now (known_of text.shown) text.shown.view;
    } };

    ghost invariant = { λ text. AreShown text.shown × (text.shown.names.form ≡ Quoted) × (text.shown.found.graph.now ≡ text.graph.now)
        × All (λ doubt. doubt.point < point_count text.graph.now) text.around.doubts.items };
}

impl Drop for JsonPathsText<'_> {
    // By hand: who gives it up then makes one call.
    fn drop(self) {
        let JsonPathsText {
            graph: _,
            changes: _,
            origins: _,
            shown: _,
            paths: _,
            around: _,
        } = self;
    }
}

// Writes the doubt of an assignment.
fn write_doubt<K: Sink>(out: &mut Pieces<'_, K>, graph: &Graph<'_>, doubt: Doubt)
    requires ready { CanWrite K.Sink out.old }
    requires point { doubt.point < point_count graph.now }
    ensures { Writes K.Sink out.old out.new (doubt_line graph.now doubt) }
{
    out.write(b"{\"type\":\"doubt\",\"point\":");
    write_number(out, doubt.point);
    out.write(b",\"line\":");
    write_number(out, line(graph, doubt.point));
    out.write(b",\"variable\":");
    write_variable(out, graph.program(), doubt.variable);
    out.write(b",\"doubt\":");
    write_number(out, doubt.origin);
    out.write(b"}\n");
}

// Writes doubts, one a line.
fn write_doubts<K: Sink>(out: &mut Pieces<'_, K>, graph: &Graph<'_>, doubts: &[Doubt])
    requires ready { CanWrite K.Sink out.old }
    requires points { All (λ doubt. doubt.point < point_count graph.now) doubts.now }
    ensures { Writes K.Sink out.old out.new (flat_map (doubt_line graph.now) doubts.now) }
{
    for doubt in doubts {
        write_doubt(out, graph, *doubt);
    }
}

// The paths of what is shown.
fn paths_shown(
    alloc: Global,
    graph: &Graph<'_>,
    shown: &ViewProgram<'_>,
) -> Result<UnsetPaths, OutOfMemory>
    requires program { shown.now.found.graph.now ≡ graph.now }
    requires shown { AreShown shown.now }
    ensures { IfOk result (AreWitnessesOf shown.now) }
{
    let uses = shown.unset_uses(alloc)?;
    UnsetPaths::of(alloc, graph, &uses)
}

impl<'a> JsonPathsText<'a> {
    /// The lines, ready to be written, with differences in place of sets where they are asked for: very busy expressions have a line each
    /// there too.
    ///
    /// The conditions: the answers to what a report asks and the tables are of this graph, these of the analyses that are shown, and the
    /// procedure that is shown is one of its program. Fails only where memory runs out.
    pub fn of(
        alloc: Global,
        graph: &'a Graph<'a>,
        tables: &'a ViewTables,
        answers: &'a ReportAnswers,
        view: View,
        changes: bool,
    ) -> Result<JsonPathsText<'a>, OutOfMemory>
        requires tables { AreViewTables graph.now view tables.now }
        requires answers { TellReport graph.now answers.now }
        requires procedure { IfSome view.procedure (λ procedure. procedure < length graph.now.procedure_names) }
        ensures first { IfOk result (λ lined. lined.first ≡ first_line changes graph.now) }
        ensures lines { IfOk result (λ lined. IsJsonWithPaths changes graph.now view (all_of_lined lined)) }
    {
        let origins = doubt_origins(alloc, graph, answers)?;
        let shown = ViewProgram::of(alloc, graph, tables, answers, view, NameForm::Quoted)?;
        let paths = paths_shown(alloc, graph, &shown)?;
        let around = surroundings_of(alloc, graph, answers, view)?;
        Ok(JsonPathsText {
            graph,
            changes,
            origins,
            shown,
            paths,
            around,
        })
    }
}

impl<'a> LinedText for JsonPathsText<'a> {
    ghost first = { λ lined. lined.first };

    ghost others = { λ lined. lined.others };

    fn write_first<K: Sink>(&self, out: &mut Pieces<'_, K>) {
        write_first_line(&self.shown, self.changes, out);
    }

    fn write_others<K: Sink>(&self, out: &mut Pieces<'_, K>) {
        let form = PathLine {
            paths: &self.paths,
            arounds: &self.around.arounds,
        };
        write_lines(
            &self.shown,
            self.origins.as_slice(),
            &form,
            self.changes,
            out,
        );
        write_doubts(out, self.graph, &self.around.doubts);
        write_end(&self.shown, out);
    }
}
